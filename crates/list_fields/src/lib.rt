// The fields of a line of the list, by the records that they are made of. No public function has a `requires`.
#![tactic(auto)]

mod fields;
mod keys;

pub use fields::{edge_field, element_field, shared_field};
