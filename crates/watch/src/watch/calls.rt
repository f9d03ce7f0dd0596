ghost use Rattle.std.specs.Prelude.{◌≡◌, ◌≤◌, ◌-◌, ◌==◌, cond};
ghost use Rattle.watch.specs.Runs.{ByLaw, MutesPass};
ghost use Rattle.watch.specs.Watch.{standing, outcome, made, ticked, says, heard_again, number_of};

use super::{Countdown, Indication, LinkWatch, Refusal};

impl LinkWatch {
    // A watch of T tenths of a second and N tries, as if the link had just been heard.
    pub fn new(timer: u32, tries: u32) -> Result<LinkWatch, Refusal>
        ensures { outcome result ≡ made timer tries }
    {
        if !(1..=600).contains(&timer) || !(1..=255).contains(&tries) {
            return Err(Refusal::Timer);
        }
        Ok(LinkWatch {
            timer: Countdown::new(timer),
            tries: Countdown::new(tries),
            muted: false,
        })
    }

    // The link was heard: the count begins again.
    pub fn heard(&mut self)
        ensures { standing self.new ≡ heard_again (standing self.old) }
    {
        self.timer.restart();
        self.tries.restart();
    }

    // A tenth of a second has passed. The count goes on while muted.
    #[tactic(auto, using(crate::proofs::Runs::watch_by_law, crate::proofs::Runs::watch_mutes_pass))]
    pub fn tick(&mut self) -> Indication
        ensures stands { standing self.new ≡ ticked (standing self.old) }
        ensures indicates { result ≡ says (standing self.old) }
        ensures runs { ByLaw (standing self.old) result }
        ensures mutes { MutesPass (standing self.old) result }
    {
        if self.timer.tick() && self.tries.tick() && !self.muted {
            Indication::LinkError
        } else {
            Indication::Quiet
        }
    }
}

impl Countdown {
    fn new(from: u32) -> Countdown
        requires { 1 ≤ from }
        ensures begins { result.from ≡ from }
        ensures whole { result.left ≡ from }
    {
        Countdown { from, left: from }
    }

    fn restart(&mut self)
        ensures same { self.new.from ≡ self.old.from }
        ensures whole { self.new.left ≡ self.old.from }
    {
        self.left = self.from;
    }

    // Takes one, and tells whether it was the last: the count has then begun again.
    fn tick(&mut self) -> bool
        ensures last { result ≡ (self.old.left - 1 == 0) }
        ensures same { self.new.from ≡ self.old.from }
        ensures goes_on { self.new.left ≡ cond result self.old.from (self.old.left - 1) }
    {
        if self.left > 1 {
            self.left -= 1;
            return false;
        }
        self.restart();
        true
    }
}

impl Refusal {
    pub fn number(self) -> u8
        ensures { result ≡ number_of self }
    {
        self as u8
    }
}
