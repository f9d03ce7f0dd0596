ghost use Rattle.std.specs.Prelude.{◌≡◌, ◌≤◌, min, length};
ghost use Rattle.checks.specs.Fcs.{least_first};
ghost use Rattle.checks.specs.Written.{check_octets, complemented};

use crate::owed::CheckOctets;

impl CheckOctets {
    // The lowest octets of a number, the least first: as many as the width says, and at most four.
    pub fn of_number(number: u32, width: usize) -> CheckOctets
        ensures { check_octets result ≡ least_first (min width 4) number }
    {
        CheckOctets {
            octets: number.to_le_bytes(),
            width: width.min(4),
        }
    }

    // Each of them the other way round, bit for bit.
    pub fn complement(self) -> CheckOctets
        ensures { check_octets result ≡ complemented (check_octets self) }
    {
        CheckOctets {
            octets: self.octets.map(|octet| !octet),
            width: self.width,
        }
    }

    // The check octets, to be sent after the octets that they check.
    pub fn as_slice(&self) -> &[u8]
        ensures octets { result.now ≡ check_octets self.now }
        ensures short { length result.now ≤ 4 }
    {
        &self.octets[..self.width]
    }
}
