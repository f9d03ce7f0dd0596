ghost use Rattle.exchange.specs.declared.run.RunError.TheVariants as error;
ghost use Rattle.std.specs.Prelude.{◌≡◌};

use frames::{Refusal, Refused};
use hearing::Heard;
use link::Answer;
use std::alloc::AllocError;

// What a run came to: the answers to its calls, the octets on the line, and what the far end reported of them.
#[derive(Drop)]
pub struct Run {
    pub answers: Vec<Answer>,
    pub line: Vec<u8>,
    pub reports: Vec<Heard>,
}

// Why there was no run: an end was refused, or memory was wanting.
#[derive(Clone, Copy, Debug, PartialEq, Eq)]
pub enum RunError {
    Refused(Refusal),
    OutOfMemory(AllocError),
}

impl From<AllocError> for RunError {
    ghost from_gives = { λ wanting why. why ≡ error.OutOfMemory wanting };

    fn from(wanting: AllocError) -> RunError {
        RunError::OutOfMemory(wanting)
    }
}

impl<T: Drop> From<Refused<T>> for RunError {
    ghost from_gives = { λ refused why. why ≡ error.Refused refused.refusal };

    fn from(refused: Refused<T>) -> RunError {
        RunError::Refused(refused.refusal)
    }
}
