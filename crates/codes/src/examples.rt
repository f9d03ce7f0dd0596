ghost use Rattle.std.specs.Prelude.{◌≡◌, ◌-◌, ◌^◌, ◌∷◌, drop};
ghost use Rattle.codes.specs.Bitline.{scrambled, descrambled};
ghost use Rattle.codes.specs.Examples.{example_given, example_line};

use crate::pile::Pile;
use crate::scrambler::Scrambler;
use crate::traits::SettlingCode;

// Eleven octets sent from a register of zeros, and received from a register of ones, where the first six come out wrong
// and the others as they were given. Two scramblers on one another settle in twelve octets.
pub fn worked_examples() -> u32
    ensures sent { scrambled 0 example_given ≡ example_line }
    ensures received { descrambled (2 ^ 43 - 1) example_line ≡ 0x81 ∷ 0xfb ∷ 0xfc ∷ 0xff ∷ 0xde ∷ 0x9d ∷ drop 6 example_given }
    ensures settling { result ≡ 12 }
{
    <Pile<Scrambler, Scrambler>>::settling_length()
}
