// Whole lines heard: by any stretches, from the start or from a late joining.
#![tactic(auto)]

mod heard;
mod line;

pub use heard::Heard;
pub use line::hear;
