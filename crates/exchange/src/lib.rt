// Whole runs over both ends: any list of calls, and the line that they write heard to its end.
#![tactic(auto)]

mod lent;
mod run;
mod sent;
mod whole;

pub use lent::Lent;
pub use run::{Run, RunError};
pub use whole::exchange;
