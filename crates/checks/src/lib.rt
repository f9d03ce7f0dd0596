// The frame check: what any check is, the two of RFC 1662, and their law.
#![tactic(auto)]

mod fcs;
mod owed;
mod published;
mod sequence;
mod traits;

pub use fcs::{Fcs16, Fcs32};
pub use owed::CheckOctets;
pub use published::published_checks;
pub use traits::{Check, check_octets_of, is_good_frame, take_in_all};
