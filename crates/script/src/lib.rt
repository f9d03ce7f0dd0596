// Scripts of calls and the listing of a run, as text.
#![tactic(auto)]

mod kind;
mod lines;
mod parse;
mod request;
mod rows;

pub use kind::{Kind, UnknownLetter};
pub use lines::{Line, Unended, next_line};
pub use parse::{behind_head, parse_line, read_line};
pub use request::letter;
pub use rows::{Row, push_names, push_row, push_unfit};
