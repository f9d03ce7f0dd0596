ghost use Rattle.std.specs.Prelude.{◌≡◌, ◌++◌, IfOk, OnOk};
ghost use Rattle.checks.specs.Fcs.{fcs16, fcs32, owed};
ghost use Rattle.inspect.specs.Listing.{field, row, refused, answer, answer_line};
ghost use Rattle.text.specs.Hex.{unhex};

use crate::carried::{Carried, carry};
use crate::code::Code;
use crate::request::request;
use checks::{Check, Fcs16, Fcs32, check_octets_of};
use std::alloc::{AllocError, Global};
use text::{parse_hex, push_hex};

// At most so many octets in a request.
pub const MOST_OCTETS: usize = 4096;

// One more field of a row.
fn push_field(out: &mut Vec<u8>, octets: &[u8]) -> Result<(), AllocError>
    ensures { OnOk result (out.new.items ≡ out.old.items ++ field octets.now) }
{
    out.push(b',')?;
    push_hex(out, octets)?;
    Ok(())
}

// The field of the check octets.
fn push_check<K: Check + Drop>(out: &mut Vec<u8>, octets: &[u8]) -> Result<(), AllocError>
    ensures { OnOk result (out.new.items ≡ out.old.items ++ field (K.Check.owed octets.now)) }
{
    push_field(out, check_octets_of::<K>(octets).as_slice())
}

// The fields of both checks.
fn push_checks(out: &mut Vec<u8>, octets: &[u8]) -> Result<(), AllocError>
    ensures { OnOk result (out.new.items ≡ out.old.items ++ field (owed fcs16 octets.now) ++ field (owed fcs32 octets.now)) }
{
    push_check::<Fcs16>(out, octets)?;
    push_check::<Fcs32>(out, octets)
}

// The fields of what the octets become on the line, and of what comes back.
fn push_carried(out: &mut Vec<u8>, carried: &Carried) -> Result<(), AllocError>
    ensures { OnOk result (out.new.items ≡ out.old.items ++ field carried.now.line.items ++ field carried.now.back.items) }
{
    push_field(out, carried.line.as_slice())?;
    push_field(out, carried.back.as_slice())
}

// The row of octets and a code.
#[tactic(auto, unfolding(crate::specs::Listing::row))]
fn row(heap: Global, code: Code, octets: &[u8]) -> Result<Vec<u8>, AllocError>
    ensures { IfOk result (λ v. v.items ≡ row code octets.now) }
{
    let carried = carry(heap, code, octets)?;
    let mut out = Vec::from_slice(heap, code.name())?;
    push_field(&mut out, octets)?;
    push_checks(&mut out, octets)?;
    push_carried(&mut out, &carried)?;
    Ok(out)
}

// The row that says that a line is no request.
pub fn refusal(heap: Global) -> Result<Vec<u8>, AllocError>
    ensures { IfOk result (λ v. v.items ≡ refused) }
{
    Vec::from_slice(heap, b"?,,,,,")
}

// The answer to a request for the code, whose octets the digits write.
fn answer(heap: Global, code: Code, digits: &[u8]) -> Result<Vec<u8>, AllocError>
    ensures { IfOk result (λ v. v.items ≡ answer code (unhex digits.now)) }
{
    match parse_hex(heap, digits)? {
        Some(octets) if octets.len() <= MOST_OCTETS => row(heap, code, octets.as_slice()),
        _ => refusal(heap),
    }
}

// The row for a line of the input, its newline left out.
pub fn inspect(heap: Global, line: &[u8]) -> Result<Vec<u8>, AllocError>
    ensures { IfOk result (λ v. v.items ≡ answer_line line.now) }
{
    match request(line) {
        Some((code, digits)) => answer(heap, code, digits),
        None => refusal(heap),
    }
}
