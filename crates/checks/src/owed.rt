ghost use Rattle.std.specs.Prelude.{◌≤◌};

mod written;

// The check octets that a check owes, in the order in which they are sent: an array and a width, and no `ArrayVec`, since the
// value is `Copy`. It derives no `PartialEq` and no `Debug`: they would read the octets behind the width, which mean nothing.
#[derive(Clone, Copy)]
pub struct CheckOctets {
    octets: [u8; 4],
    width: usize,
    ghost fits: { width ≤ 4 },
}
