ghost use Rattle.std.specs.Prelude.{◌≡◌, length};
ghost use Rattle.std.specs.Option.{option_map};
ghost use Rattle.frames.specs.Of.{terms};
ghost use Rattle.frames.specs.Receiving.{hunting, begun, gather, verdict, raised, moved, report_of, delivered};
ghost use Rattle.receiver.specs.Models.{ear, AlikeEars};

use crate::gathered::Gathered;
use crate::judge::judge;
use checks::Check;
use frames::{
    ADAPTATION, Cause, ESCAPE, ESCAPED_ESCAPE, ESCAPED_FLAG, FLAG, Fault, Faulty, Report, Settings,
    Standing,
};

// What a receiver has in hand since the last flag, behind its line code. The settings are lent to each call, so that no
// contract need say that they stay.
#[derive(Drop)]
pub struct Gatherer<K> {
    check: K,
    standing: Standing,
    gathered: Gathered,
}

impl<K: Check + Drop> Gatherer<K> {
    pub fn new() -> Gatherer<K>
        ensures { AlikeEars (ear K.Check.passes result) (hunting K.Check.good) }
    {
        Gatherer {
            check: K::start(),
            standing: Standing::Hunting,
            gathered: Gathered::new(),
        }
    }

    // A frame begins.
    fn begin(&mut self)
        ensures { AlikeEars (ear K.Check.passes self.new) (begun K.Check.good) }
    {
        self.check = K::start();
        self.standing = Standing::Gathering;
        self.gathered.clear();
    }

    // One octet more, unless that is more than a good frame has.
    fn gather(&mut self, settings: &Settings, octet: u8)
        ensures { AlikeEars (ear K.Check.passes self.new) (gather (terms settings.now) (ear K.Check.passes self.old) octet) }
    {
        if self.gathered.len() >= settings.limit() {
            self.standing = Standing::Skipping(Cause::Overlong);
            return;
        }
        self.gathered.push(octet);
        self.check.take_in(octet);
        self.standing = Standing::Gathering;
    }

    // What a flag makes of what came before it. In line, as `end` is, so that an octet that is no flag pays nothing for it.
    #[inline(always)]
    fn verdict(&self, settings: &Settings, delivery: &mut [u8]) -> Option<Report<usize>>
        ensures report { result ≡ option_map report_of (verdict (terms settings.now) (length delivery.old) (ear K.Check.passes self.now) self.now.standing) }
        ensures delivery { delivery.new ≡ delivered (verdict (terms settings.now) (length delivery.old) (ear K.Check.passes self.now) self.now.standing) delivery.old }
    {
        let gathered = self.gathered.len();
        let outcome = match self.standing {
            Standing::Hunting => return None,
            Standing::Gathering if gathered == 0 => return None,
            Standing::Gathering => {
                let good = self.check.is_good();
                judge(settings, good, self.gathered.as_slice(), delivery)
            }
            Standing::AfterEscape => Err(Fault::Abort),
            Standing::Skipping(cause) => Err(Fault::from(cause)),
        };
        Some(outcome.map_err(|fault| Faulty { fault, gathered }))
    }

    // A flag ends what came before it, and the next frame begins.
    #[inline(always)]
    fn end(&mut self, settings: &Settings, delivery: &mut [u8]) -> Option<Report<usize>>
        ensures report { result ≡ option_map report_of (verdict (terms settings.now) (length delivery.old) (ear K.Check.passes self.old) self.old.standing) }
        ensures delivery { delivery.new ≡ delivered (verdict (terms settings.now) (length delivery.old) (ear K.Check.passes self.old) self.old.standing) delivery.old }
        ensures ear { AlikeEars (ear K.Check.passes self.new) (begun K.Check.good) }
    {
        let report = self.verdict(settings, delivery);
        self.begin();
        report
    }

    // One octet as the line code gives it back. A flag with nothing before it has nothing to report, and is told apart first,
    // by the standing: between two frames each octet may be one.
    pub fn hear(
        &mut self,
        settings: &Settings,
        octet: u8,
        delivery: &mut [u8],
    ) -> Option<Report<usize>>
        ensures report { result ≡ option_map report_of (raised (terms settings.now) (length delivery.old) (ear K.Check.passes self.old) octet) }
        ensures delivery { delivery.new ≡ delivered (raised (terms settings.now) (length delivery.old) (ear K.Check.passes self.old) octet) delivery.old }
        ensures ear { AlikeEars (ear K.Check.passes self.new) (moved (terms settings.now) K.Check.good (ear K.Check.passes self.old) octet) }
    {
        match (self.standing, octet) {
            (Standing::Hunting, FLAG) => self.begin(),
            (Standing::Gathering, FLAG) if self.gathered.len() == 0 => self.begin(),
            (Standing::Gathering | Standing::AfterEscape | Standing::Skipping(_), FLAG) =>
                return self.end(settings, delivery),
            (Standing::Hunting | Standing::Skipping(_), _) => {}
            (Standing::Gathering, ESCAPE) => self.standing = Standing::AfterEscape,
            (Standing::Gathering, _) => self.gather(settings, octet),
            (Standing::AfterEscape, ESCAPED_ESCAPE) => self.gather(settings, ESCAPE),
            (Standing::AfterEscape, ESCAPED_FLAG) => self.gather(settings, FLAG),
            (Standing::AfterEscape, ADAPTATION) => self.standing = Standing::Gathering,
            (Standing::AfterEscape, _) => self.standing = Standing::Skipping(Cause::Escape),
        }
        None
    }
}
