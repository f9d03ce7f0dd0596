use crate::answer::Answer;
use crate::calling::Sender;
use frames::Report;
use receiver::Receiver;

mod methods;

// Both ends: whatever a call writes the receiver hears.
#[derive(Drop)]
pub struct Link<L, D, K> {
    sender: Sender<L, K>,
    receiver: Receiver<D, K>,
}

// A link after a call: what the call was answered, and what the receiver reported of it.
#[derive(Drop)]
pub struct Stepped<L, D, K> {
    pub link: Link<L, D, K>,
    pub answer: Answer,
    pub report: Option<Report<usize>>,
}
