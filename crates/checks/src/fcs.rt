ghost use Rattle.std.specs.Prelude.{◌≡◌, ⊤, ℕ, ◌*◌, ◌^◌, ◌<◌, ◌≤◌};
ghost use Rattle.octets.specs.Bits.{low_first};
ghost use Rattle.checks.specs.Fcs.{shifted, bits_taken, octets_taken, register_owes, register_good, owed, good};
ghost use Rattle.checks.specs.Sound.{sound_owes, sound_tells};

use crate::owed::CheckOctets;
use crate::sequence::{Bits16, Bits32, Kind};
use crate::traits::Check;
use std::alloc::AllocError;
use std::marker::PhantomData;

// One place on: a 1 that falls out brings the constant in.
fn shift(constant: u32, register: u32) -> u32
    ensures { result ≡ shifted constant register }
{
    (register >> 1) ^ (register % 2 * constant)
}

// An octet taken in at once: exclusive-ored into the register, which then moves eight places.
fn octet_taken(constant: u32, register: u32, octet: u8) -> u32
    ensures taken { result ≡ bits_taken constant register (low_first octet) }
    ensures narrow { (k : ℕ) → 8 ≤ k → constant < 2 ^ k → register < 2 ^ k → result < 2 ^ k }
{
    let mut moved = register ^ u32::from(octet);
    for _ in 0..u8::BITS {
        moved = shift(constant, moved);
    }
    moved
}

// A frame check sequence of RFC 1662.
#[derive_where(Debug, PartialEq, Eq)]
pub struct Fcs<S: Kind> {
    register: u32,
    kind: PhantomData<S>,
    ghost narrow: { register < 2 ^ (8 * S.SEQUENCE.width) },
}

// The 16-bit frame check sequence.
pub type Fcs16 = Fcs<Bits16>;

// The 32-bit frame check sequence.
pub type Fcs32 = Fcs<Bits32>;

// by hand: the derives of `Clone` and `Copy` are refused on a generic struct with a ghost field
impl<S: Kind> Clone for Fcs<S> {
    ghost is_clone = { λ c d. d ≡ c };

    ghost is_infallible = { λ _. ⊤ };

    fn clone(&self) -> Result<Fcs<S>, AllocError> {
        Ok(*self)
    }
}

impl<S: Kind> Copy for Fcs<S> {}

impl<S: Kind> Check for Fcs<S> {
    ghost width = { S.SEQUENCE.width };

    ghost owed = { owed S.SEQUENCE };

    ghost good = { good S.SEQUENCE };

    ghost owes = { λ c os. register_owes S.SEQUENCE (octets_taken S.SEQUENCE.constant c.register os) };

    ghost passes = { λ c os. register_good S.SEQUENCE (octets_taken S.SEQUENCE.constant c.register os) };

    ghost widths = { S.Kind.widths };

    ghost long = { sound_owes S.SEQUENCE };

    ghost tells = { sound_tells S.SEQUENCE S.sound };

    fn octet_count() -> usize {
        S::SEQUENCE.width
    }

    fn start() -> Fcs<S> {
        Fcs {
            register: S::START,
            kind: PhantomData,
        }
    }

    fn take_in(&mut self, octet: u8) {
        self.register = octet_taken(S::SEQUENCE.constant, self.register, octet);
    }

    fn octets(&self) -> CheckOctets {
        CheckOctets::of_number(S::START - self.register, S::SEQUENCE.width)
    }

    fn is_good(&self) -> bool {
        self.register == S::SEQUENCE.residue
    }
}
