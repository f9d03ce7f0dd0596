ghost use Rattle.std.specs.Prelude.{◌≡◌, ℕ};
ghost use Rattle.checks.specs.Fcs.{fcs16, fcs32, ones};
ghost use Rattle.checks.specs.Law.{Width};
ghost use Rattle.checks.specs.Sound.{Sound, sound16, sound32};
ghost use Rattle.checks.specs.declared.sequence.Sequence.{Sequence};
ghost use Rattle.std.proofs.Common.{refl, inl, inr};

// What tells the two sequences apart: how many octets, the constant, and the register that means good.
#[derive(Clone, Copy, Debug, PartialEq, Eq)]
pub struct Sequence {
    pub width: usize,
    pub constant: u32,
    pub residue: u32,
}

// A type that stands for a sequence.
pub trait Kind {
    const SEQUENCE: Sequence;

    // the register with all bits 1
    const START: u32;

    ghost SEQUENCE: { Sequence };

    ghost START: { ℕ };

    ghost all_ones: { START ≡ ones SEQUENCE };

    ghost widths: { Width SEQUENCE.width };

    ghost sound: { Sound SEQUENCE };
}

#[derive(Clone, Copy, Debug, PartialEq, Eq)]
pub struct Bits16;

impl Kind for Bits16 {
    const SEQUENCE: Sequence = Sequence {
        width: 2,
        constant: 0x8408,
        residue: 0xf0b8,
    };

    const START: u32 = 0xffff;

    ghost SEQUENCE = { fcs16 };

    ghost START = { ones fcs16 };

    ghost all_ones = { refl };

    ghost widths = { inl refl };

    ghost sound = { sound16 };
}

#[derive(Clone, Copy, Debug, PartialEq, Eq)]
pub struct Bits32;

impl Kind for Bits32 {
    const SEQUENCE: Sequence = Sequence {
        width: 4,
        constant: 0xedb8_8320,
        residue: 0xdebb_20e3,
    };

    const START: u32 = 0xffff_ffff;

    ghost SEQUENCE = { fcs32 };

    ghost START = { ones fcs32 };

    ghost all_ones = { refl };

    ghost widths = { inr refl };

    ghost sound = { sound32 };
}
