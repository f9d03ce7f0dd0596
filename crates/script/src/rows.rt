ghost use Rattle.std.specs.Prelude.{◌≡◌, is_ok, IfOk, Some, Ok, Err};
ghost use Rattle.script.specs.Rows.{fields_of_report, row_text, unfit_row, names_line};
ghost use Rattle.text.specs.Appending.{appended};

use frames::{Delivered, Faulty, Report};
use std::alloc::{AllocError, Global};
use text::{push_decimal, push_hex};

// the letter and the number of a line that is no call that the sender allows
const UNFIT: u8 = b'?';

const UNFIT_NUMBER: u8 = 31;

// A call's row: its letter, the number of its answer, the octets that it put on the line and the report that they
// raised. A host may give any letter and any number, as a listing has them, so no narrower type fits.
#[derive(Clone, Copy, Debug, PartialEq, Eq)]
pub struct Row<'a> {
    pub letter: u8,
    pub answer: u8,
    pub line: &'a [u8],
    pub report: Option<Report<usize>>,
}

impl Row<'_> {
    // The row of an unfit line.
    pub fn unfit() -> Row<'static>
        ensures { row_text result ≡ unfit_row }
    {
        Row {
            letter: UNFIT,
            answer: UNFIT_NUMBER,
            line: &[],
            report: None,
        }
    }
}

// A report's columns are built by hand: a `Display` for them was tried, and its proof did not close, since in `fmt` the
// bounds of the numbers within the report are not at hand.
fn delivered_fields(heap: Global, delivered: Delivered<usize>) -> Result<Vec<u8>, AllocError>
    ensures { IfOk result (λ v. v.items ≡ fields_of_report (Some (Ok delivered))) }
{
    let mut fields = Vec::from_slice(heap, b"D,0,")?;
    push_hex(&mut fields, &delivered.sapi.to_be_bytes())?;
    fields.extend_from_slice(b",")?;
    push_decimal(&mut fields, delivered.information)?;
    Ok(fields)
}

fn faulty_fields(heap: Global, faulty: Faulty) -> Result<Vec<u8>, AllocError>
    ensures { IfOk result (λ v. v.items ≡ fields_of_report (Some (Err faulty))) }
{
    let mut fields = Vec::from_slice(heap, b"F,")?;
    push_decimal(&mut fields, usize::from(faulty.fault.number()))?;
    fields.extend_from_slice(b",-,")?;
    push_decimal(&mut fields, faulty.gathered)?;
    Ok(fields)
}

fn report_fields(heap: Global, report: Option<Report<usize>>) -> Result<Vec<u8>, AllocError>
    ensures { IfOk result (λ v. v.items ≡ fields_of_report report) }
{
    match report {
        None => Vec::from_slice(heap, b"-,-,-,-"),
        Some(Ok(delivered)) => delivered_fields(heap, delivered),
        Some(Err(faulty)) => faulty_fields(heap, faulty),
    }
}

// A row's octets. It is no `Display`: a letter may be any octet, and text cannot hold each.
fn text_of(heap: Global, row: &Row<'_>) -> Result<Vec<u8>, AllocError>
    ensures { IfOk result (λ v. v.items ≡ row_text row.now) }
{
    let mut text = Vec::from_slice(heap, &[row.letter, b','])?;
    push_decimal(&mut text, usize::from(row.answer))?;
    text.extend_from_slice(b",")?;
    push_hex(&mut text, row.line)?;
    text.extend_from_slice(b",")?;
    let fields = report_fields(heap, row.report)?;
    text.extend_from_slice(&fields)?;
    text.extend_from_slice(b"\n")?;
    Ok(text)
}

// One row behind what is there, or nothing where there is no memory for all of it.
pub fn push_row(out: &mut Vec<u8>, row: &Row<'_>) -> Result<(), AllocError>
    ensures { out.new.items ≡ appended (is_ok result) out.old.items (row_text row.now) }
{
    let text = text_of(*out.allocator(), row)?;
    out.extend_from_slice(&text)
}

// The row of an unfit line.
pub fn push_unfit(out: &mut Vec<u8>) -> Result<(), AllocError>
    ensures { out.new.items ≡ appended (is_ok result) out.old.items unfit_row }
{
    push_row(out, &Row::unfit())
}

// The names of the columns.
pub fn push_names(out: &mut Vec<u8>) -> Result<(), AllocError>
    ensures { out.new.items ≡ appended (is_ok result) out.old.items names_line }
{
    out.extend_from_slice(b"call,answer,line,report,number,sapi,count\n")
}
