ghost use Rattle.codes.specs.Memoryless.{unaltered_rule, unaltered_after};
ghost use Rattle.std.proofs.Common.{refl, sym, ◌∙◌};

use crate::traits::{LineCode, SettlingCode};

// The line code that alters nothing. It is told over the whole list, and `Mirrored` octet by octet: one generic type would be
// no unit value, and a trait for both would ask each for the same laws again. All that they share is `receive`.
#[derive(Clone, Copy, Debug, PartialEq, Eq)]
pub struct Straight;

impl LineCode for Straight {
    ghost onward = { λ c octets. octets };

    ghost back = { λ c octets. octets };

    ghost sends = { λ c. unaltered_rule };

    ghost receives = { λ c. unaltered_rule };

    ghost undoes = { λ c xs o. refl };

    fn send(&mut self, octet: u8) -> u8 {
        octet
    }

    fn receive(&mut self, octet: u8) -> u8 {
        self.send(octet)
    }
}

impl SettlingCode for Straight {
    ghost settling = { 0 };

    ghost settled = { λ c d heard heard' further h h' f. unaltered_after heard further ∙ sym (unaltered_after heard' further) };

    fn settling_length() -> u32 {
        0
    }
}
