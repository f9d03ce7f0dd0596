ghost use Rattle.link.specs.declared.calling.Sender.TheVariants as state;
ghost use Rattle.std.specs.Prelude.{◌≡◌};

use crate::answer::Answer;
use sender::{Idle, Open};

mod methods;

// A sender in either of its states, for calls whose order is not known when the host is built.
#[derive(Drop)]
pub enum Sender<L, K> {
    Idle(Idle<L, K>),
    Open(Open<L, K>),
}

impl<L, K> From<Idle<L, K>> for Sender<L, K> {
    ghost from_gives = { λ given sender. sender ≡ state.Idle given };

    fn from(idle: Idle<L, K>) -> Sender<L, K> {
        Sender::Idle(idle)
    }
}

impl<L, K> From<Open<L, K>> for Sender<L, K> {
    ghost from_gives = { λ given sender. sender ≡ state.Open given };

    fn from(open: Open<L, K>) -> Sender<L, K> {
        Sender::Open(open)
    }
}

// The sender after a call, and what the call was answered.
#[derive(Drop)]
pub struct Called<L, K> {
    pub sender: Sender<L, K>,
    pub answer: Answer,
}
