ghost use Rattle.std.specs.Prelude.{◌≡◌, ℕ, ◌-◌, ◌<◌, ◌≤◌, ◌++◌, map, length, take, drop, IfOk, OnOk, OnSome};
ghost use Rattle.hearing.specs.Hears.{next_stretch, outcome_entry, placed_of, report_entry, noted, reports_of, AgreesWhenLate};
ghost use Rattle.receiver.specs.Models.{Fed, HasHeard};

use crate::heard::Heard;
use checks::Check;
use codes::LineCode;
use frames::{Delivered, Report};
use octets::front;
use receiver::Receiver;
use std::alloc::{AllocError, Global};

// Room for any information: no setting allows more.
const DELIVERY: usize = 2048;

// A report with the information that was delivered.
fn outcome(
    heap: Global,
    report: Report<usize>,
    delivery: &[u8],
) -> Result<Report<Vec<u8>>, AllocError>
    ensures { IfOk result (λ o. outcome_entry o ≡ report_entry report delivery.now) }
{
    match report {
        Ok(Delivered { sapi, information }) => {
            let information = Vec::from_slice(heap, front(delivery, information))?;
            Ok(Ok(Delivered { sapi, information }))
        }
        Err(faulty) => Ok(Err(faulty)),
    }
}

// One feed, of at most `cut` of the octets ahead.
fn feed_some<L: LineCode, K: Check + Drop>(
    receiver: &mut Receiver<L, K>,
    ahead: &[u8],
    cut: usize,
    delivery: &mut [u8],
) -> (usize, Option<Report<usize>>)
    ensures fed { Fed L.LineCode.back K.Check.passes K.Check.good receiver.old (take cut ahead.now) delivery.old receiver.new delivery.new result.0 result.1 }
    ensures within { result.0 ≤ length ahead.now }
    ensures raised { OnSome result.1 (0 < result.0) }
    ensures some { 0 < cut → 0 < length ahead.now → 0 < result.0 }
{
    receiver.feed(front(ahead, cut), delivery)
}

// A report, if there is one, is put behind those before. It was raised by the octet before the place `next`.
fn note(
    reports: &mut Vec<Heard>,
    next: usize,
    report: Option<Report<usize>>,
    delivery: &[u8],
) -> Result<(), AllocError>
    requires { OnSome report (0 < next) }
    ensures { OnOk result (map placed_of reports.new.items ≡ map placed_of reports.old.items ++ noted (next - 1) report delivery.now) }
{
    if let Some(report) = report {
        let place = next - 1;
        let outcome = outcome(*reports.allocator(), report, delivery)?;
        reports.push(Heard { place, outcome })?;
    }
    Ok(())
}

// The length of the next stretch, and the further ones. Behind the last there is one for all that is left, whose length is a
// number too, the largest: as an `Option` it would be turned into one at once.
fn next_cut(cuts: &[usize]) -> (usize, &[usize])
    ensures cut { result.0 ≡ next_stretch cuts.now }
    ensures further { result.1.now ≡ drop 1 cuts.now }
    ensures ends { (0 < length cuts.now → length result.1.now < length cuts.now) × (length cuts.now ≡ 0 → (0 < result.0) × (length result.1.now ≡ 0)) }
{
    match cuts {
        [] => (usize::MAX, cuts),
        [cut, further @ ..] => (*cut, further),
    }
}

// Hears a line to its end, by stretches of these lengths in turn and then by one for all that is left. What is reported does
// not depend on them. A receiver that joined late agrees with one that heard all behind any flag that lies the settling
// length or more past the joining. Where memory is wanting, some beginning of the line has been heard.
pub fn hear<L: LineCode, K: Check + Drop>(
    heap: Global,
    receiver: &mut Receiver<L, K>,
    line: &[u8],
    cuts: &[usize],
) -> Result<Vec<Heard>, AllocError>
    ensures reports { IfOk result (λ v. map placed_of v.items ≡ reports_of L.LineCode.back K.Check.passes K.Check.good receiver.old line.now) }
    ensures late { IfOk result (λ v. AgreesWhenLate L.LineCode.back K.Check.passes K.Check.good receiver.old line.now (map placed_of v.items)) }
    ensures leaves { OnOk result (HasHeard L.LineCode.back K.Check.passes K.Check.good receiver.old line.now receiver.new) }
    ensures begun { (n : ℕ) × HasHeard L.LineCode.back K.Check.passes K.Check.good receiver.old (take n line.now) receiver.new }
{
    let mut reports = Vec::new(heap);
    let mut delivery = [0; DELIVERY];
    let mut ahead = line;
    let mut rest = cuts;
    while !ahead.is_empty() {
        let (cut, further) = next_cut(rest);
        let (used, report) = feed_some(receiver, ahead, cut, &mut delivery);
        ahead = &ahead[used..];
        rest = further;
        note(&mut reports, line.len() - ahead.len(), report, &delivery)?;
    }
    Ok(reports)
}
