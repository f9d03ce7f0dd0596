// The receiving end.
#![tactic(auto)]

mod ear;
mod gathered;
mod judge;
mod receiver;

pub use receiver::Receiver;
