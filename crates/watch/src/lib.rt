// The link watch of X.85, A.4.3: a timer T, run N times, tells a dead link.
#![tactic(auto)]

mod watch;

pub use watch::line_test::{LineTest, NoAnswer, loop_back};
pub use watch::{Indication, LinkWatch, Refusal};
