ghost use Rattle.std.specs.Prelude.{◌≡◌, length, is_ok, if◌then◌else◌, nat_le};
ghost use Rattle.inspect.specs.Keeping.{keeping, Enough};

use crate::listing::MOST_OCTETS;
use std::alloc::AllocError;

// No request has more characters: the longest name, a space, and two digits for each octet.
const LONGEST: usize = 9 + 1 + 2 * MOST_OCTETS;

// What is kept of a line is enough to answer it. A theorem: there is nothing to do.
fn kept_is_enough()
    ensures { Enough }
{}

// Whether the line is not too long yet.
fn has_room(line: &[u8]) -> bool
    ensures { result ≡ nat_le (length line.now) 8202 }
{
    line.len() <= LONGEST
}

// One more character of a line, unless the line is too long already: then what follows does not matter.
pub fn keep(line: &mut Vec<u8>, character: u8) -> Result<(), AllocError>
    ensures held { line.new.items ≡ (if is_ok result then keeping line.old.items character else line.old.items) }
    ensures enough { Enough }
{
    kept_is_enough();
    if has_room(line.as_slice()) {
        line.push(character)?;
    }
    Ok(())
}
