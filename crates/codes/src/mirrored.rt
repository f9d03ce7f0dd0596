ghost use Rattle.std.proofs.Common.{sym, ◌∙◌};
ghost use Rattle.codes.specs.Mirror.{mirrored, all_mirrored};
ghost use Rattle.codes.specs.Memoryless.{map_rule, map_undoes, map_after};
ghost use Rattle.codes.specs.Mirroring.{mirrored_octet, mirrored_twice};

use crate::traits::{LineCode, SettlingCode};

// The line code that reverses the order of each octet's bits.
#[derive(Clone, Copy, Debug, PartialEq, Eq)]
pub struct Mirrored;

impl LineCode for Mirrored {
    ghost onward = { λ c. all_mirrored };

    ghost back = { λ c. all_mirrored };

    ghost sends = { λ c. map_rule mirrored mirrored_octet };

    ghost receives = { λ c. map_rule mirrored mirrored_octet };

    ghost undoes = { λ c. map_undoes mirrored mirrored_twice };

    #[tactic(auto, using(crate::specs::Mirroring::reversed))]
    fn send(&mut self, octet: u8) -> u8 {
        octet.reverse_bits()
    }

    // mirrored again, an octet is as it was
    fn receive(&mut self, octet: u8) -> u8 {
        self.send(octet)
    }
}

impl SettlingCode for Mirrored {
    ghost settling = { 0 };

    ghost settled = { λ c d heard heard' further h h' f. map_after mirrored heard further ∙ sym (map_after mirrored heard' further) };

    fn settling_length() -> u32 {
        0
    }
}
