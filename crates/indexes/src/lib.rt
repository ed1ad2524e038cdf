// A bucket with its index: built, checked, and the entries of a slot. No public function has a `requires`.
#![tactic(auto)]

mod build;
mod check;
mod entry;
mod merge;
mod place;
mod slot;

pub use build::build_index;
pub use check::{check_given, check_index, check_side};
pub use place::{place_at, put_place};
pub use slot::{slot_entries, slot_entries_part};
