// The key at a place of a lent table, and the first table; questions about a table and where a key stands in it, of crates
// of their own, are handed on. No public function has a `requires`.
#![tactic(auto)]

mod get;
mod init;

pub use get::{get_key, get_key_part};
pub use init::init_pivot_table;
pub use table_bounds::{bounded_key, pivot_insertable, valid_left_cut_off_key};
pub use table_questions::{contains_all_keys, contains_range, wf_edges, wf_pivots};
