ghost use Rattle.std.specs.Prelude.{map, IfOk};
ghost use Rattle.exchange.specs.Running.{RunsNew, Exchanges};
ghost use Rattle.exchange.specs.Sending.{lent_of};

use crate::lent::Lent;
use crate::run::{Run, RunError};
use crate::sent::Sending;
use checks::Check;
use codes::LineCode;
use frames::Settings;
use hearing::hear;
use link::Sender;
use receiver::Receiver;
use sender::Idle;
use std::alloc::{AllocError, Global};

// Makes the calls at one end, and lets the other hear the line to its end.
fn run_over<L: LineCode + Drop, D: LineCode + Drop, K: Check + Drop>(
    heap: Global,
    idle: Idle<L, K>,
    mut receiver: Receiver<D, K>,
    calls: &[Lent<'_>],
    cuts: &[usize],
) -> Result<Run, AllocError>
    ensures { IfOk result (λ run. RunsNew L.LineCode.onward L.LineCode.back D.LineCode.onward D.LineCode.back K.Check.owed K.Check.passes K.Check.good K.Check.width idle receiver (map lent_of calls.now) run) }
{
    let begun = Sending {
        sender: Sender::Idle(idle),
        line: Vec::new(heap),
        answers: Vec::new(heap),
    };
    let Sending {
        sender: _,
        line,
        answers,
    } = begun.send_all(heap, calls)?;
    let reports = hear(heap, &mut receiver, line.as_slice(), cuts)?;
    Ok(Run {
        answers,
        line,
        reports,
    })
}

// Runs a list of calls over two new ends with these settings, each over a line code of its own; the receiving end hears the
// line by stretches of these lengths in turn. Where the line codes mean the same, what is reported is what was sent.
pub fn exchange<L: LineCode + Drop, D: LineCode + Drop, K: Check + Drop>(
    heap: Global,
    settings: Settings,
    near: L,
    far: D,
    calls: &[Lent<'_>],
    cuts: &[usize],
) -> Result<Run, RunError>
    ensures { Exchanges L.LineCode.onward L.LineCode.back D.LineCode.onward D.LineCode.back K.Check.owed K.Check.good K.Check.width settings near far (map lent_of calls.now) result }
{
    let idle = Idle::<L, K>::new(settings, near)?;
    let receiver = Receiver::<D, K>::new(settings, far)?;
    let run = run_over(heap, idle, receiver, calls, cuts)?;
    Ok(run)
}
