// What frames are: the terms of a link, the answers with their numbers, and the definitions of what is sent and read.
#![tactic(auto)]

mod answers;
mod layout;
mod request;
mod settings;
mod standing;
mod worked;

pub use answers::{Delivered, Fault, Faulty, Refusal, Refused, Report};
pub use layout::{
    ADAPTATION, ADDRESS, CONTROL, ESCAPE, ESCAPED_ESCAPE, ESCAPED_FLAG, FLAG, HEADER, header_octets,
};
pub use request::Request;
pub use settings::Settings;
pub use standing::{Cause, Standing};
pub use worked::worked_cases;
