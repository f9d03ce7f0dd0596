// Views of delivered information: its fields as parts of it, each with its place.
#![tactic(auto)]

mod cut;
mod ip;
mod mac;
mod parts;
mod protocols;

pub use parts::{Ipv4Packet, Ipv6Packet, MacFrame, Part, Refusal, View};
pub use protocols::view_of;
