ghost use Rattle.std.specs.Prelude.{◌≡◌, true, false, is_ok};
ghost use Rattle.watch.specs.Runs.{ByLaw};
ghost use Rattle.watch.specs.Watch.{standing, ticked, says, heard_again, with_mute, all_answered, ticks_tested, tested};

use super::{Indication, LinkWatch};

// A line test in progress. As long as it lasts, its watch counts and indicates nothing; its end, however the test is
// left, lets the watch indicate again. The clauses `same` say that a call keeps the borrow that the test holds: a fact of
// two states, which no invariant of one can carry.
#[must_use]
pub struct LineTest<'a> {
    watch: &'a mut LinkWatch,
}

impl LineTest<'_> {
    pub fn begin(watch: &mut LinkWatch) -> LineTest<'_>
        ensures stands { standing result.watch.now ≡ with_mute true (standing watch.old) }
        ensures same { result.watch.ghost_name ≡ watch.entry.ghost_name }
    {
        watch.muted = true;
        LineTest { watch }
    }

    pub fn tick(&mut self) -> Indication
        ensures stands { standing self.new.watch.now ≡ ticked (standing self.old.watch.now) }
        ensures indicates { result ≡ says (standing self.old.watch.now) }
        ensures runs { ByLaw (standing self.old.watch.now) result }
        ensures same { self.new.watch.ghost_name ≡ self.old.watch.ghost_name }
    {
        self.watch.tick()
    }

    pub fn heard(&mut self)
        ensures stands { standing self.new.watch.now ≡ heard_again (standing self.old.watch.now) }
        ensures same { self.new.watch.ghost_name ≡ self.old.watch.ghost_name }
    {
        self.watch.heard();
    }
}

impl Drop for LineTest<'_> {
    fn drop(self)
        ensures { standing self.exit.0.now ≡ with_mute false (standing self.entry.watch.now) }
    {
        self.watch.muted = false;
        let LineTest { watch: _ } = self;
    }
}

// The line test's far end did not answer.
#[derive(Clone, Copy, PartialEq, Eq, Debug)]
pub struct NoAnswer;

// A line test that wants an answer at each tick, and is left early, by `?`, at the first that is missing.
pub fn loop_back(watch: &mut LinkWatch, answers: &[bool]) -> Result<(), NoAnswer>
    ensures answered { is_ok result ≡ all_answered answers.now }
    ensures stands { standing watch.new ≡ tested answers.now (standing watch.old) }
{
    let mut test = LineTest::begin(watch);
    for answered in answers {
        let _ = test.tick();
        answered.then_some(()).ok_or(NoAnswer)?;
    }
    Ok(())
}
