// Bytes in hexadecimal and small numbers in decimal, as text. No public function has a `requires`.
#![tactic(auto)]

mod decimal;
mod hex;

pub use decimal::number_field;
pub use hex::write_hex;
