ghost use Rattle.std.specs.Prelude.{◌≡◌};
ghost use Rattle.sender.specs.Outcomes.{Making, Opening, Filling};

use super::Idle;
use crate::open::Open;
use crate::putting::{put, put_times, turns_length};
use crate::stuffed::{Stuffed, stuffed_length};
use checks::{Check, take_in_all};
use codes::LineCode;
use frames::{FLAG, Refusal, Refused, Settings, header_octets};
use std::iter::once;
use std::marker::PhantomData;

impl<L: LineCode, K: Check> Idle<L, K> {
    // Over a check of another width than the settings say none is made, and the line code is given back.
    pub fn new(settings: Settings, line: L) -> Result<Idle<L, K>, Refused<L>>
        ensures { Making K.Check.width settings line result }
    {
        let line = settings.allow::<K, L>(line)?;
        Ok(Idle {
            settings,
            line,
            kind: PhantomData,
        })
    }

    // Opens a frame: a flag, and the address, the control and the SAPI. The answer is the sender with the frame open and how
    // many octets were written, or the same sender again.
    pub fn open(
        self,
        sapi: u16,
        stretch: &mut [u8],
    ) -> Result<(Open<L, K>, usize), Refused<Idle<L, K>>>
        ensures { Opening L.LineCode.onward K.Check.owed K.Check.owes sapi self stretch.old stretch.new result }
    {
        if !self.settings.serves(sapi) {
            return Err(Refused {
                given: self,
                refusal: Refusal::Unserved,
            });
        }
        let header = header_octets(sapi);
        let count = 1 + stuffed_length(&header);
        if count > stretch.len() {
            return Err(Refused {
                given: self,
                refusal: Refusal::Stretch,
            });
        }
        let Idle {
            settings,
            mut line,
            kind: _,
        } = self;
        put(&mut line, once(FLAG).chain(Stuffed::new(&header)), stretch);
        let mut check = K::start();
        take_in_all(&mut check, &header);
        let open = Open {
            settings,
            line,
            check,
            count: 0,
        };
        Ok((open, count))
    }

    // Fills the time between two frames with k flags.
    pub fn fill(&mut self, k: u16, stretch: &mut [u8]) -> Result<usize, Refusal>
        ensures { Filling L.LineCode.onward k self.old self.new stretch.old stretch.new result }
    {
        if turns_length(&[FLAG], k) > stretch.len() {
            return Err(Refusal::Stretch);
        }
        Ok(put_times(&mut self.line, &[FLAG], k, stretch))
    }

    // Ends the sender and gives its line code back.
    pub fn into_line(self) -> L
        ensures { result ≡ self.line }
    {
        let Idle {
            settings: _,
            line,
            kind: _,
        } = self;
        line
    }
}
