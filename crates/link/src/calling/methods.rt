ghost use Rattle.std.specs.Prelude.{◌≡◌};
ghost use Rattle.octets.specs.Octets.{Octets};
ghost use Rattle.frames.specs.Calls.{Typed};
ghost use Rattle.frames.specs.Of.{lent_call};
ghost use Rattle.link.specs.Answering.{Crosses, stayed_as};
ghost use Rattle.link.specs.Driving.{CallsOn};

use super::{Called, Sender};
use crate::answer::TurnedDown;
use checks::Check;
use codes::LineCode;
use frames::{Refusal, Refused, Request};
use sender::{Idle, Open};

impl<L: LineCode, K: Check + Drop> Sender<L, K> {
    // Makes the call that a request stands for.
    pub fn call(self, request: Request<&[u8]>, stretch: &mut [u8]) -> Called<L, K>
        ensures calls { CallsOn L.LineCode.onward K.Check.owes K.Check.owed (lent_call request.entry) self stretch.old result.sender stretch.new result.answer }
        ensures typed { Typed (lent_call request.entry) }
    {
        well_typed(request);
        match (self, request) {
            (Sender::Idle(idle), Request::Open(sapi)) => crossed(idle.open(sapi, stretch)),
            (Sender::Idle(mut idle), Request::Fill(flags)) => {
                let outcome = idle.fill(flags, stretch);
                stayed(Sender::Idle(idle), outcome)
            }
            (Sender::Open(mut open), Request::Add(information)) => {
                let outcome = open.add(information, stretch);
                stayed(Sender::Open(open), outcome)
            }
            (Sender::Open(mut open), Request::Adapt(pairs)) => {
                let outcome = open.adapt(pairs, stretch);
                stayed(Sender::Open(open), outcome)
            }
            (Sender::Open(open), Request::Close) => crossed(open.close(stretch)),
            (Sender::Open(open), Request::Abort) => crossed(open.abort(stretch)),
            (Sender::Open(open), Request::Spoil) => crossed(open.spoil(stretch)),
            (sender, _) => Called {
                sender,
                answer: Err(TurnedDown::NotAllowed),
            },
        }
    }
}

// The sender stays in the state that it is in.
fn stayed<L, K>(sender: Sender<L, K>, outcome: Result<usize, Refusal>) -> Called<L, K>
    ensures { result ≡ stayed_as sender outcome }
{
    Called {
        sender,
        answer: outcome.map_err(TurnedDown::from),
    }
}

// The call took the sender to its other state, or it was turned down and gave the sender back.
fn crossed<L, K, A: Into<Sender<L, K>>, B: Into<Sender<L, K>>>(
    outcome: Result<(A, usize), Refused<B>>,
) -> Called<L, K>
    ensures { Crosses A.Into.converts B.Into.converts outcome result }
{
    match outcome {
        Ok((other, written)) => Called {
            sender: other.into(),
            answer: Ok(written),
        },
        Err(Refused { given, refusal }) => Called {
            sender: given.into(),
            answer: Err(refusal.into()),
        },
    }
}

// A request's arguments are of their types: a fact for the proofs, no code.
fn well_typed(request: Request<&[u8]>)
    ensures { Typed (lent_call request.entry) }
{
    if let Request::Add(information) = request {
        octets(information);
    }
}

fn octets(information: &[u8])
    ensures { Octets information.now }
{
    let _ = information.is_empty();
}
