// The sending end of a link, for any line code and any frame check.
#![tactic(auto)]

mod idle;
mod open;
mod putting;
mod stuffed;

pub use idle::Idle;
pub use open::Open;
