// A bucket and its index, cut with the table. No public function has a `requires`.
#![tactic(auto)]

mod cut;

pub use cut::{cut_index_left, cut_index_right};
