ghost use Rattle.std.specs.Prelude.{◌≡◌, ◌<◌, [], ◌++◌, take, IfSome, is_ok, IfOk, Some, None, vec_items, vec_len, OnOk};
ghost use Rattle.std.specs.Option.{option_map};
ghost use Rattle.text.specs.Appending.{appended};
ghost use Rattle.text.specs.Hex.{digit, digit_value, octet_digits, hex, both, unhex};

use std::alloc::{AllocError, Global};

// The code of a digit below sixteen.
fn digit_code(value: u8) -> u8
    requires { value < 16 }
    ensures { result ≡ digit value }
{
    if value < 10 {
        b'0' + value
    } else {
        b'a' + (value - 10)
    }
}

// Two digits behind what is there, or nothing where there is no memory.
fn push_octet(out: &mut Vec<u8>, octet: u8) -> Result<(), AllocError>
    ensures { out.new.items ≡ appended (is_ok result) out.old.items (octet_digits octet) }
{
    out.extend_from_slice(&[digit_code(octet / 16), digit_code(octet % 16)])
}

// The digits of each octet in turn, as far as the memory goes.
#[tactic(auto, unfolding(crate::specs::Hex::hex))]
fn push_octets(out: &mut Vec<u8>, octets: &[u8]) -> Result<(), AllocError>
    ensures whole { OnOk result (out.new.items ≡ out.old.items ++ hex octets.now) }
    ensures kept { take (vec_len out.old) out.new.items ≡ out.old.items }
{
    for octet in octets {
        push_octet(out, *octet)?;
    }
    Ok(())
}

// Octets as hexadecimal digits behind what is there, or nothing where there is no memory for all of them. Digit by digit: with
// `Hex`'s `Display` in its place `lapscheck` took half as long again.
pub fn push_hex(out: &mut Vec<u8>, octets: &[u8]) -> Result<(), AllocError>
    ensures { out.new.items ≡ appended (is_ok result) out.old.items (hex octets.now) }
{
    let before = out.len();
    let pushed = push_octets(out, octets);
    if pushed.is_err() {
        out.truncate(before);
    }
    pushed
}

// The value of a hexadecimal digit, lower-case letters alone.
pub fn digit_value(code: u8) -> Option<u8>
    ensures value { result ≡ digit_value code }
    ensures small { IfSome result (λ d. d < 16) }
{
    match code {
        b'0'..=b'9' => Some(code - b'0'),
        b'a'..=b'f' => Some(code - b'a' + 10),
        _ => None,
    }
}

// The octet that two hexadecimal digits write.
pub fn octet_value(high: u8, low: u8) -> Option<u8>
    ensures { result ≡ both (digit_value high) (digit_value low) }
{
    let high = digit_value(high)?;
    let low = digit_value(low)?;
    Some(high * 16 + low)
}

// The octets that a text of hexadecimal digits writes, if it is one.
pub fn parse_hex(heap: Global, text: &[u8]) -> Result<Option<Vec<u8>>, AllocError>
    ensures { IfOk result (λ o. option_map vec_items o ≡ unhex text.now) }
{
    let mut octets = Vec::new(heap);
    let mut rest = text;
    while let [high, low, further @ ..] = rest {
        let Some(octet) = octet_value(*high, *low) else {
            return Ok(None);
        };
        octets.push(octet)?;
        rest = further;
    }
    Ok(rest.is_empty().then_some(octets))
}
