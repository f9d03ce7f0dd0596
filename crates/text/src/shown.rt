ghost use Rattle.std.specs.Prelude.{Some};
ghost use Rattle.text.specs.Hex.{hex};

use std::fmt;

// Octets that print as hexadecimal digits.
#[derive(Clone, Copy, Debug, PartialEq, Eq)]
pub struct Hex<'a>(pub &'a [u8]);

impl fmt::Display for Hex<'_> {
    ghost output = { λ shown. Some (hex shown.0.now) };

    #[tactic(auto, unfolding(crate::specs::Hex::hex))]
    fn fmt<W: fmt::Write>(&self, f: &mut fmt::Formatter<W>) -> fmt::Result {
        for &octet in self.0 {
            write!(f, "{octet:02x}")?;
        }
        Ok(())
    }
}
