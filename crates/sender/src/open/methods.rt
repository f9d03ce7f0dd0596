ghost use Rattle.std.specs.Prelude.{◌≡◌, []};
ghost use Rattle.checks.specs.Written.{check_octets};
ghost use Rattle.frames.specs.Layout.{closing_octets, spoiling_octets, aborting_octets};
ghost use Rattle.sender.specs.Outcomes.{Adding, Adapting, Ending};

use super::Open;
use crate::idle::Idle;
use crate::putting::{put, put_closing, put_stuffed, put_times, turns_length};
use crate::stuffed::stuffed_length;
use checks::{Check, CheckOctets, take_in_all};
use codes::LineCode;
use frames::{ADAPTATION, ESCAPE, FLAG, Refusal, Refused};
use std::iter::once;
use std::marker::PhantomData;

impl<L: LineCode, K: Check + Drop> Open<L, K> {
    // Adds information to the frame.
    pub fn add(&mut self, information: &[u8], stretch: &mut [u8]) -> Result<usize, Refusal>
        ensures { Adding L.LineCode.onward K.Check.owes information.now self.old self.new stretch.old stretch.new result }
    {
        if information.len() > self.settings.longest() - self.count {
            return Err(Refusal::Overfull);
        }
        let written = stuffed_length(information);
        if written > stretch.len() {
            return Err(Refusal::Stretch);
        }
        put_stuffed(&mut self.line, information, stretch);
        // a pass of its own: fed in the pass above, the check would have to stand inside the iterator of stuffed octets
        take_in_all(&mut self.check, information);
        self.count += information.len();
        Ok(written)
    }

    // Adapts the rate inside the frame by k pairs that stand for nothing.
    pub fn adapt(&mut self, k: u16, stretch: &mut [u8]) -> Result<usize, Refusal>
        ensures { Adapting L.LineCode.onward k self.old self.new stretch.old stretch.new result }
    {
        if turns_length(&[ESCAPE, ADAPTATION], k) > stretch.len() {
            return Err(Refusal::Stretch);
        }
        Ok(put_times(&mut self.line, &[ESCAPE, ADAPTATION], k, stretch))
    }

    // Ends the frame with the check octets that it owes.
    pub fn close(self, stretch: &mut [u8]) -> Result<(Idle<L, K>, usize), Refused<Open<L, K>>>
        ensures { Ending L.LineCode.onward (closing_octets (K.Check.owes self.check [])) self stretch.old stretch.new result }
    {
        let owed = self.check.octets();
        self.end(owed, stretch)
    }

    // Ends the frame with check octets that the far end must find wrong.
    pub fn spoil(self, stretch: &mut [u8]) -> Result<(Idle<L, K>, usize), Refused<Open<L, K>>>
        ensures { Ending L.LineCode.onward (spoiling_octets (K.Check.owes self.check [])) self stretch.old stretch.new result }
    {
        let owed = self.check.octets();
        self.end(owed.complement(), stretch)
    }

    // Breaks the frame off.
    pub fn abort(self, stretch: &mut [u8]) -> Result<(Idle<L, K>, usize), Refused<Open<L, K>>>
        ensures { Ending L.LineCode.onward aborting_octets self stretch.old stretch.new result }
    {
        if stretch.len() < 2 {
            return Err(Refused {
                given: self,
                refusal: Refusal::Stretch,
            });
        }
        let mut idle = self.ended();
        put(&mut idle.line, once(ESCAPE).chain(once(FLAG)), stretch);
        Ok((idle, 2))
    }

    // Ends the frame with these check octets and a flag.
    fn end(
        self,
        owed: CheckOctets,
        stretch: &mut [u8],
    ) -> Result<(Idle<L, K>, usize), Refused<Open<L, K>>>
        ensures { Ending L.LineCode.onward (closing_octets (check_octets owed)) self stretch.old stretch.new result }
    {
        let owed = owed.as_slice();
        let written = stuffed_length(owed) + 1;
        if written > stretch.len() {
            return Err(Refused {
                given: self,
                refusal: Refusal::Stretch,
            });
        }
        let mut idle = self.ended();
        put_closing(&mut idle.line, owed, stretch);
        Ok((idle, written))
    }

    // the sender without its frame
    fn ended(self) -> Idle<L, K>
        ensures settings { result.settings ≡ self.settings }
        ensures line { result.line ≡ self.line }
    {
        let Open {
            settings,
            line,
            check: _,
            count: _,
        } = self;
        Idle {
            settings,
            line,
            kind: PhantomData,
        }
    }
}
