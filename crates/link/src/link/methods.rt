ghost use Rattle.frames.specs.Calls.{Typed};
ghost use Rattle.frames.specs.Of.{lent_call};
ghost use Rattle.frames.specs.Pieces.{ReportsAreSaid};
ghost use Rattle.frames.specs.Promise.{SentIsReported, CuttingIsFree, HearingEnds};
ghost use Rattle.link.specs.Linked.{Joining, Exchanges, HearsFront};

use super::{Link, Stepped};
use crate::calling::{Called, Sender};
use crate::promise::{cutting_is_free, hearing_ends, reports_are_said, sent_is_reported};
use checks::Check;
use codes::LineCode;
use frames::{Refused, Report, Request, Settings};
use octets::front;
use receiver::Receiver;
use sender::Idle;

impl<L: LineCode, D: LineCode, K: Check + Drop> Link<L, D, K> {
    // Makes both ends with equal settings, over a line code each. The line codes of a refused one are given back.
    pub fn new(settings: Settings, line: L, far: D) -> Result<Link<L, D, K>, Refused<(L, D)>>
        ensures made { Joining L.LineCode.onward D.LineCode.back K.Check.owes K.Check.passes K.Check.owed K.Check.good K.Check.width settings line far result }
        ensures sent { SentIsReported L.LineCode.onward L.LineCode.back D.LineCode.onward D.LineCode.back K.Check.width K.Check.owed K.Check.good }
        ensures cutting { CuttingIsFree D.LineCode.back D.LineCode.back K.Check.good }
        ensures said { ReportsAreSaid }
        ensures ends { HearingEnds K.Check.good }
    {
        sent_is_reported::<L, D, K>();
        cutting_is_free::<D, D, K>();
        reports_are_said();
        hearing_ends::<K>();
        let idle = match Idle::new(settings, line) {
            Ok(idle) => idle,
            Err(Refused { given, refusal }) => {
                return Err(Refused {
                    given: (given, far),
                    refusal,
                });
            }
        };
        match Receiver::new(settings, far) {
            Ok(receiver) => Ok(Link {
                sender: Sender::Idle(idle),
                receiver,
            }),
            Err(Refused { given, refusal }) => Err(Refused {
                given: (idle.into_line(), given),
                refusal,
            }),
        }
    }

    // One call at the sending end; the receiving end hears what it wrote, and the report, if any, is of this call.
    pub fn call(
        self,
        request: Request<&[u8]>,
        stretch: &mut [u8],
        delivery: &mut [u8],
    ) -> Stepped<L, D, K>
        ensures exchanged { Exchanges L.LineCode.onward D.LineCode.back K.Check.owes K.Check.passes K.Check.owed K.Check.good K.Check.width (lent_call request.entry) self stretch.old delivery.old result.link stretch.new delivery.new result.answer result.report }
        ensures typed { Typed (lent_call request.entry) }
    {
        let Link {
            sender,
            mut receiver,
        } = self;
        let Called { sender, answer } = sender.call(request, stretch);
        let report = match answer {
            Ok(written) => hear_front(&mut receiver, stretch, written, delivery),
            Err(_) => None,
        };
        Stepped {
            link: Link { sender, receiver },
            answer,
            report,
        }
    }
}

// Hears the first octets of a stretch, at most all of it.
fn hear_front<D: LineCode, K: Check + Drop>(
    receiver: &mut Receiver<D, K>,
    stretch: &[u8],
    count: usize,
    delivery: &mut [u8],
) -> Option<Report<usize>>
    ensures { HearsFront D.LineCode.back K.Check.passes K.Check.good receiver.old stretch.now count delivery.old receiver.new delivery.new result }
{
    let (_, report) = receiver.feed(front(stretch, count), delivery);
    report
}
