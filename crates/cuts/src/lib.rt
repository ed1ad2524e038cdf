// The cuts of a table with its edges; insertion, of a crate of its own, is handed on. No public function has a `requires`.
#![tactic(auto)]

mod split;

pub use insertion::insert_pivot;
pub use split::{split_left, split_right};
