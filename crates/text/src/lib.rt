// Octets and numbers as text.
#![tactic(auto)]

mod decimal;
mod hex;
mod shown;

pub use decimal::{parse_decimal, push_decimal};
pub use hex::{digit_value, octet_value, parse_hex, push_hex};
pub use shown::Hex;
