// What octets become on a line: one line of a listing for each line that asks.
#![tactic(auto)]

mod carried;
mod code;
mod keeping;
mod listing;
mod request;

pub use code::Code;
pub use keeping::keep;
pub use listing::{inspect, refusal};
