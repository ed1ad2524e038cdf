// Bytes copied to the head of a destination, up to its end. No public function has a `requires`.
#![tactic(auto)]

mod blocks;
mod bytes;

pub use blocks::{copy_by_blocks, join_by_blocks};
pub use bytes::{copy, join};
