ghost use Rattle.std.specs.Prelude.{◌≡◌, is_ok, IfOk, Some, string_bytes};
ghost use Rattle.text.specs.Appending.{appended};
ghost use Rattle.text.specs.Decimal.{decimal, undecimal, number_with_digit, read_on};

use std::alloc::{AllocError, Global};

// The number's digits.
#[tactic(auto, using(crate::proofs::Figures::written_decimal))]
fn digits(heap: Global, number: usize) -> Result<String, AllocError>
    ensures { IfOk result (λ s. string_bytes s ≡ decimal number) }
{
    number.to_string(heap)
}

// The number in decimal digits behind what is there, or nothing where there is no memory for all of them.
pub fn push_decimal(out: &mut Vec<u8>, number: usize) -> Result<(), AllocError>
    ensures { out.new.items ≡ appended (is_ok result) out.old.items (decimal number) }
{
    let written = digits(*out.allocator(), number)?;
    out.extend_from_slice(written.as_bytes())
}

// The number with one more digit behind it, if that is a digit and the number fits.
fn with_digit(number: u16, code: u8) -> Option<u16>
    ensures { result ≡ number_with_digit number code }
{
    match code {
        b'0'..=b'9' => number.checked_mul(10)?.checked_add(u16::from(code - b'0')),
        _ => None,
    }
}

// The number that digits write, none of which may be left out. A loop: a `try_fold` was tried, and its goal did not
// close. It is no `parse::<u16>`, which takes a sign too.
fn read_digits(text: &[u8]) -> Option<u16>
    ensures { result ≡ read_on (Some 0) text.now }
{
    let mut number = 0;
    for code in text {
        number = with_digit(number, *code)?;
    }
    Some(number)
}

// The number from 0 to 65535 that a text writes in decimal digits with no leading zero, if it does.
pub fn parse_decimal(text: &[u8]) -> Option<u16>
    ensures { result ≡ undecimal text.now }
{
    match text {
        [] | [b'0', _, ..] => None,
        _ => read_digits(text),
    }
}
