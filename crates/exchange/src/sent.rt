use link::{Answer, Sender};

mod methods;

// A sender, with the line that it has written so far and its answers.
#[derive(Drop)]
pub(crate) struct Sending<L, K> {
    pub(crate) sender: Sender<L, K>,
    pub(crate) line: Vec<u8>,
    pub(crate) answers: Vec<Answer>,
}
