ghost use Rattle.std.specs.Prelude.{◌≡◌};
ghost use Rattle.std.specs.Result.{result_ok};
ghost use Rattle.script.specs.Script.{kind_of};

// What a line of a script asks for.
#[derive(Clone, Copy, Debug, PartialEq, Eq)]
pub enum Kind {
    Open,
    Add,
    Adapt,
    Fill,
    Close,
    Abort,
    Spoil,
}

// A letter that no kind has.
#[derive(Clone, Copy, Debug, PartialEq, Eq)]
pub struct UnknownLetter;

// By the letter at the head of the line.
impl TryFrom<u8> for Kind {
    type Error = UnknownLetter;

    ghost try_from_gives = { λ letter kind. result_ok kind ≡ kind_of letter };

    fn try_from(letter: u8) -> Result<Self, UnknownLetter> {
        match letter as char {
            'O' => Ok(Kind::Open),
            'I' => Ok(Kind::Add),
            'R' => Ok(Kind::Adapt),
            'N' => Ok(Kind::Fill),
            'C' => Ok(Kind::Close),
            'X' => Ok(Kind::Abort),
            'S' => Ok(Kind::Spoil),
            _ => Err(UnknownLetter),
        }
    }
}
