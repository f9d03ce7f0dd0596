// The listing of a script: both ends run its calls, and each line gets a row.
#![tactic(auto)]

ghost use Rattle.std.specs.Prelude.{◌≡◌, IfOk};
ghost use Rattle.listing.specs.Listing.{listing};

use script::{behind_head, push_names, push_unfit};
use std::alloc::{AllocError, Global};

mod ends;
mod rows;

// Runs a script over a sender and a receiver, and gives its listing.
pub fn run_script(heap: Global, input: &[u8]) -> Result<Vec<u8>, AllocError>
    ensures { IfOk result (λ v. v.items ≡ listing input.now) }
{
    let mut out = Vec::new(heap);
    push_names(&mut out)?;
    match behind_head(input) {
        Some(text) => ends::list_text(text, out),
        None => {
            push_unfit(&mut out)?;
            Ok(out)
        }
    }
}
