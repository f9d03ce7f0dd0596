ghost use Rattle.std.specs.Prelude.{◌≡◌};
ghost use Rattle.inspect.specs.Listing.{beyond, asked, request};
ghost use Rattle.std.specs.Option.{option_map};

use crate::code::Code;

// What stands behind a front, if the text begins with it.
#[tactic(auto, using(text::proofs::Stripped::stripped), unfolding(crate::specs::Listing::beyond))]
fn strip<'a>(text: &'a [u8], front: &[u8]) -> Option<&'a [u8]>
    ensures { option_map (λ x. x.now) result ≡ beyond front.now text.now }
{
    text.strip_prefix(front)
}

// The digits of a request for the code, if the line is one.
fn digits_for(code: Code, line: &[u8]) -> Option<&[u8]>
    ensures { option_map (λ x. x.now) result ≡ asked code line.now }
{
    let rest = strip(line, code.name())?;
    strip(rest, b" ")
}

// The code that the line asks for, and the digits behind it. A loop: a `find_map` was tried, and its goal did not close.
#[tactic(auto, unfolding(crate::specs::Listing::request))]
pub fn request(line: &[u8]) -> Option<(Code, &[u8])>
    ensures { option_map (λ asked. (asked.0, asked.1.now)) result ≡ request line.now }
{
    for code in Code::ALL {
        if let Some(digits) = digits_for(code, line) {
            return Some((code, digits));
        }
    }
    None
}
