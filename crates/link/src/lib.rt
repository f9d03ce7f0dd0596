// Both ends together: a sender driven by calls given as data, and a receiver that hears what it writes.
#![tactic(auto)]

mod answer;
mod calling;
mod link;
mod promise;

pub use answer::{Answer, TurnedDown};
pub use calling::{Called, Sender};
pub use link::{Link, Stepped};
pub use promise::{
    cutting_is_free, hearing_ends, reports_are_said, sent_is_reported, settles_after,
};
