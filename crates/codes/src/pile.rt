ghost use Rattle.std.specs.Prelude.{◌+◌};
ghost use Rattle.codes.specs.Piles.{pile_rule, pile_settles};
ghost use Rattle.std.proofs.Common.{ap, ◌∙◌};

use crate::traits::{LineCode, SettlingCode};

// Two line codes as one: sending passes the upper first, receiving the lower first.
#[derive(Clone, Copy, Debug, PartialEq, Eq, Drop)]
pub struct Pile<U, L> {
    pub upper: U,
    pub lower: L,
}

impl<U: LineCode, L: LineCode> LineCode for Pile<U, L> {
    ghost onward = { λ p octets. L.LineCode.onward p.lower (U.LineCode.onward p.upper octets) };

    ghost back = { λ p octets. U.LineCode.back p.upper (L.LineCode.back p.lower octets) };

    ghost sends = { λ c. pile_rule (U.LineCode.onward c.upper) (L.LineCode.onward c.lower) (U.LineCode.sends c.upper) (L.LineCode.sends c.lower) };

    ghost receives = { λ c. pile_rule (L.LineCode.back c.lower) (U.LineCode.back c.upper) (L.LineCode.receives c.lower) (U.LineCode.receives c.upper) };

    ghost undoes = { λ c xs o.
        ap (U.LineCode.back c.upper) (L.LineCode.undoes c.lower (U.LineCode.onward c.upper xs) ((U.LineCode.sends c.upper).octets xs o))
        ∙ U.LineCode.undoes c.upper xs o };

    fn send(&mut self, octet: u8) -> u8 {
        let between = self.upper.send(octet);
        self.lower.send(between)
    }

    fn receive(&mut self, octet: u8) -> u8 {
        let between = self.lower.receive(octet);
        self.upper.receive(between)
    }
}

impl<U: SettlingCode, L: SettlingCode> SettlingCode for Pile<U, L> {
    ghost settling = { U.SettlingCode.settling + L.SettlingCode.settling };

    ghost settled = { λ c d.
        pile_settles (L.LineCode.back c.lower) (U.LineCode.back c.upper) (L.LineCode.back d.lower) (U.LineCode.back d.upper)
        (L.LineCode.receives c.lower) (U.LineCode.receives c.upper) (L.LineCode.receives d.lower) (U.LineCode.receives d.upper)
        L.SettlingCode.settling U.SettlingCode.settling (L.SettlingCode.settled c.lower d.lower) (U.SettlingCode.settled c.upper d.upper) };

    // the upper code settles on what the lower gives once that has settled
    fn settling_length() -> u32 {
        U::settling_length().saturating_add(L::settling_length())
    }
}
