ghost use Rattle.std.specs.Prelude.{◌≡◌, ◌≤◌, length};
ghost use Rattle.views.specs.Views.{piece_of, piece};

use crate::parts::Part;

// The part of the information from the place `from` up to the place `to`.
pub(crate) fn cut(information: &[u8], from: usize, to: usize) -> Part<'_>
    requires { (from ≤ to) × (to ≤ length information.now) }
    ensures { piece_of result ≡ piece information.now from to }
{
    Part {
        at: from,
        octets: &information[from..to],
    }
}
