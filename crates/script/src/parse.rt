ghost use Rattle.std.specs.Prelude.{◌≡◌, IfOk, Some};
ghost use Rattle.std.specs.Option.{option_map};
ghost use Rattle.frames.specs.Of.{owned_call};
ghost use Rattle.script.specs.Requests.{line_of};
ghost use Rattle.script.specs.Script.{word, bare, call_with, read_call, line_call, stripped_head, after_head};
ghost use Rattle.text.specs.Hex.{unhex};

use crate::kind::{Kind, UnknownLetter};
use crate::lines::{Line, Unended};
use frames::Request;
use std::alloc::{AllocError, Global};
use text::{octet_value, parse_decimal, parse_hex};

const COMMA: u8 = b',';

// a script has no more octets than these
const LONGEST: usize = 16384;

// A SAPI: two octets, the high one first.
fn parse_sapi(value: &[u8]) -> Option<u16>
    ensures { result ≡ word (unhex value.now) }
{
    let [a, b, c, d] = value else {
        return None;
    };
    let high = octet_value(*a, *b)?;
    let low = octet_value(*c, *d)?;
    Some(u16::from_be_bytes([high, low]))
}

// A request that takes no value.
fn alone(request: Request<Vec<u8>>, value: &[u8]) -> Option<Request<Vec<u8>>>
    ensures { option_map owned_call result ≡ bare (owned_call request) value.now }
{
    value.is_empty().then_some(request)
}

fn request_of(
    heap: Global,
    kind: Kind,
    value: &[u8],
) -> Result<Option<Request<Vec<u8>>>, AllocError>
    ensures { IfOk result (λ q. option_map owned_call q ≡ call_with (Some kind) value.now) }
{
    let request = match kind {
        Kind::Open => parse_sapi(value).map(Request::Open),
        Kind::Add => parse_hex(heap, value)?.map(Request::Add),
        Kind::Adapt => parse_decimal(value).map(Request::Adapt),
        Kind::Fill => parse_decimal(value).map(Request::Fill),
        Kind::Close => alone(Request::Close, value),
        Kind::Abort => alone(Request::Abort, value),
        Kind::Spoil => alone(Request::Spoil, value),
    };
    Ok(request)
}

// The call that a line's octets ask for: its letter, a comma and its value.
pub fn parse_line(heap: Global, line: &[u8]) -> Result<Option<Request<Vec<u8>>>, AllocError>
    ensures { IfOk result (λ q. option_map owned_call q ≡ read_call line.now) }
{
    let [letter, COMMA, value @ ..] = line else {
        return Ok(None);
    };
    match Kind::try_from(*letter) {
        Ok(kind) => request_of(heap, kind, value),
        Err(UnknownLetter) => Ok(None),
    }
}

// The call that a line asks for; none if nothing ends it.
pub fn read_line(heap: Global, line: Line<'_>) -> Result<Option<Request<Vec<u8>>>, AllocError>
    ensures { IfOk result (λ q. option_map owned_call q ≡ line_call (line_of line.entry)) }
{
    match line {
        Ok(octets) => parse_line(heap, octets),
        Err(Unended) => Ok(None),
    }
}

fn strip_head(script: &[u8]) -> Option<&[u8]>
    ensures { option_map (λ rest. rest.now) result ≡ stripped_head script.now }
{
    script.strip_prefix(b"call,value\n")
}

// What stands behind the first line, unless that is another than `call,value` or the script is too long.
pub fn behind_head(script: &[u8]) -> Option<&[u8]>
    ensures { option_map (λ rest. rest.now) result ≡ after_head script.now }
{
    if script.len() > LONGEST {
        return None;
    }
    strip_head(script)
}
