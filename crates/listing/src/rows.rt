ghost use Rattle.std.specs.Prelude.{◌≡◌, map, IfOk, Some, OnOk};
ghost use Rattle.frames.specs.Of.{owned_call};
ghost use Rattle.listing.specs.Listing.{settings, stretch_length};
ghost use Rattle.listing.specs.Steps.{answered_row, Lists, ListsAll};
ghost use Rattle.script.specs.Requests.{line_of};
ghost use Rattle.script.specs.Rows.{row_text};
ghost use Rattle.script.specs.Script.{lines, line_call};

use checks::Check;
use codes::LineCode;
use frames::{Report, Request};
use link::{Answer, Link, Stepped, TurnedDown};
use octets::front;
use script::{Line, Row, letter, next_line, push_row, push_unfit, read_line};
use std::alloc::AllocError;

pub const STRETCH: usize = 8192;

pub const DELIVERY: usize = 1600;

// What a run works with: what its calls write to, what its reports deliver to, and its listing so far.
#[derive(Drop)]
pub struct Bench {
    pub stretch: [u8; STRETCH],
    pub delivery: [u8; DELIVERY],
    pub out: Vec<u8>,
}

// The row of a call by its letter, what it was answered and reported, and the stretch that it left.
fn answered(letter: u8, answer: Answer, stretch: &[u8], report: Option<Report<usize>>) -> Row<'_>
    ensures { row_text result ≡ answered_row letter answer stretch.now report }
{
    match answer {
        Ok(count) => Row {
            letter,
            answer: 0,
            line: front(stretch, count),
            report,
        },
        Err(TurnedDown::Refused(refusal)) => Row {
            letter,
            answer: refusal.number(),
            line: &[],
            report: None,
        },
        Err(TurnedDown::NotAllowed) => Row::unfit(),
    }
}

impl Bench {
    // The row of a call: it is made at the sending end, and the receiving end hears what it writes.
    fn list_call<L: LineCode + Drop, D: LineCode + Drop, K: Check + Drop>(
        &mut self,
        link: Link<L, D, K>,
        request: &Request<Vec<u8>>,
    ) -> Result<Link<L, D, K>, AllocError>
        ensures { IfOk result (λ after. Lists L.LineCode.onward D.LineCode.back K.Check.owes K.Check.passes K.Check.owed K.Check.good K.Check.width (Some (owned_call request.now)) stretch_length settings.longest link self.old.out.items after self.new.out.items) }
    {
        let Stepped {
            link,
            answer,
            report,
        } = link.call(request.as_deref(), &mut self.stretch, &mut self.delivery);
        let row = answered(letter(request), answer, &self.stretch, report);
        push_row(&mut self.out, &row)?;
        Ok(link)
    }

    // The row of a line.
    fn list_line<L: LineCode + Drop, D: LineCode + Drop, K: Check + Drop>(
        &mut self,
        link: Link<L, D, K>,
        line: Line<'_>,
    ) -> Result<Link<L, D, K>, AllocError>
        ensures { IfOk result (λ after. Lists L.LineCode.onward D.LineCode.back K.Check.owes K.Check.passes K.Check.owed K.Check.good K.Check.width (line_call (line_of line.entry)) stretch_length settings.longest link self.old.out.items after self.new.out.items) }
    {
        match read_line(*self.out.allocator(), line)? {
            Some(request) => self.list_call(link, &request),
            None => {
                push_unfit(&mut self.out)?;
                Ok(link)
            }
        }
    }

    // The rows of all lines of a script.
    pub fn list_lines<L: LineCode + Drop, D: LineCode + Drop, K: Check + Drop>(
        &mut self,
        link: Link<L, D, K>,
        text: &[u8],
    ) -> Result<(), AllocError>
        ensures { OnOk result (ListsAll L.LineCode.onward D.LineCode.back K.Check.owes K.Check.passes K.Check.owed K.Check.good K.Check.width (map line_call (lines text.now)) stretch_length settings.longest link self.old.out.items self.new.out.items) }
    {
        let mut link = link;
        let mut rest = text;
        while let Some((line, further)) = next_line(rest) {
            link = self.list_line(link, line)?;
            rest = further;
        }
        Ok(())
    }
}
