ghost use Rattle.link.specs.declared.answer.TurnedDown.TheVariants.{Refused};
ghost use Rattle.std.specs.Prelude.{◌≡◌};

use frames::Refusal;

// Why a call was not made.
#[derive(Clone, Copy, Debug, PartialEq, Eq)]
pub enum TurnedDown {
    Refused(Refusal),
    // without a frame open only open and fill are allowed, with one open only the others
    NotAllowed,
}

impl From<Refusal> for TurnedDown {
    ghost from_gives = { λ refusal turned_down. turned_down ≡ Refused refusal };

    fn from(refusal: Refusal) -> TurnedDown {
        TurnedDown::Refused(refusal)
    }
}

// What a call was answered: how many octets it wrote, or why none.
pub type Answer = Result<usize, TurnedDown>;
