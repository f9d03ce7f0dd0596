ghost use Rattle.std.specs.Prelude.{◌≡◌, [], ◌∷◌, ◌++◌, map, length, IfOk, OnOk};
ghost use Rattle.frames.specs.Calls.{Typed};
ghost use Rattle.frames.specs.Of.{lent_call};
ghost use Rattle.exchange.specs.Sending.{lent_of, written_front, SendsOne, SendsAll};

use super::Sending;
use crate::lent::Lent;
use checks::Check;
use codes::LineCode;
use frames::Request;
use link::{Answer, Called};
use octets::front;
use std::alloc::{AllocError, Global};

// Puts what a call wrote behind the line.
fn keep_written(line: &mut Vec<u8>, answer: Answer, stretch: &[u8]) -> Result<(), AllocError>
    ensures { OnOk result (line.new.items ≡ line.old.items ++ written_front answer stretch.now) }
{
    if let Ok(written) = answer {
        line.extend_from_slice(front(stretch, written))?;
    }
    Ok(())
}

impl<L: LineCode + Drop, K: Check + Drop> Sending<L, K> {
    // One call; what it wrote is put behind the line. Its answer is not put behind those before, but handed on.
    fn send_into(
        self,
        request: Request<&[u8]>,
        stretch: &mut [u8],
    ) -> Result<(Sending<L, K>, Answer), AllocError>
        ensures sends { IfOk result (λ s. SendsOne L.LineCode.onward K.Check.owes K.Check.owed (record { call = lent_call request.entry; room = length stretch.old }) self.sender self.line.items self.answers.items s.0.sender s.0.line.items (s.0.answers.items ++ s.1 ∷ [])) }
        ensures typed { OnOk result (Typed (lent_call request.entry)) }
    {
        let Sending {
            sender,
            mut line,
            answers,
        } = self;
        let Called { sender, answer } = sender.call(request, stretch);
        keep_written(&mut line, answer, stretch)?;
        let sent = Sending {
            sender,
            line,
            answers,
        };
        Ok((sent, answer))
    }

    // The same, with a stretch of its own.
    fn send_apart(self, heap: Global, lent: Lent<'_>) -> Result<(Sending<L, K>, Answer), AllocError>
        ensures sends { IfOk result (λ s. SendsOne L.LineCode.onward K.Check.owes K.Check.owed (lent_of lent.entry) self.sender self.line.items self.answers.items s.0.sender s.0.line.items (s.0.answers.items ++ s.1 ∷ [])) }
        ensures typed { OnOk result (Typed (lent_call lent.entry.request)) }
    {
        let mut stretch = vec![in heap; 0u8; lent.room]?;
        let sent = self.send_into(lent.request, stretch.as_mut_slice())?;
        Ok(sent)
    }

    // The same, and its answer is put behind those before: only here, where the stretch is gone, so that a long one never
    // stands beside a growing list.
    fn send(self, heap: Global, lent: Lent<'_>) -> Result<Sending<L, K>, AllocError>
        ensures sends { IfOk result (λ s. SendsOne L.LineCode.onward K.Check.owes K.Check.owed (lent_of lent.entry) self.sender self.line.items self.answers.items s.sender s.line.items s.answers.items) }
        ensures typed { OnOk result (Typed (lent_call lent.entry.request)) }
    {
        let (mut sending, answer) = self.send_apart(heap, lent)?;
        sending.answers.push(answer)?;
        Ok(sending)
    }

    // A list of calls, each on the sender that the last one gave back.
    pub(crate) fn send_all(
        self,
        heap: Global,
        calls: &[Lent<'_>],
    ) -> Result<Sending<L, K>, AllocError>
        ensures { IfOk result (λ s. SendsAll L.LineCode.onward K.Check.owes K.Check.owed (map lent_of calls.now) self.sender self.line.items self.answers.items s.line.items s.answers.items) }
    {
        let mut sending = self;
        for lent in calls {
            sending = sending.send(heap, *lent)?;
        }
        Ok(sending)
    }
}
