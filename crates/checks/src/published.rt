ghost use Rattle.std.specs.Prelude.{◌≡◌};
ghost use Rattle.checks.specs.Published.{Published, digits16, digits32};
ghost use Rattle.checks.specs.Written.{check_octets};

use crate::fcs::{Fcs16, Fcs32};
use crate::owed::CheckOctets;
use crate::traits::check_octets_of;

// The check octets of the nine digits 1 to 9, whose values are published: 0x906e and 0xcbf43926.
pub fn published_checks() -> (CheckOctets, CheckOctets)
    ensures short { check_octets result.0 ≡ digits16 }
    ensures long { check_octets result.1 ≡ digits32 }
    ensures defined { Published }
{
    let digits = b"123456789";
    (
        check_octets_of::<Fcs16>(digits),
        check_octets_of::<Fcs32>(digits),
    )
}
