// Line codes: what any is, the kinds, and their laws.
#![tactic(auto)]

mod examples;
mod mirrored;
mod pile;
mod scrambler;
mod slices;
mod straight;
mod traits;

pub use examples::worked_examples;
pub use mirrored::Mirrored;
pub use pile::Pile;
pub use scrambler::Scrambler;
pub use slices::{receive_all, send_all};
pub use straight::Straight;
pub use traits::{LineCode, SettlingCode, same_meaning_undoes};
