// The list of a table, as text. No public function has a `requires`.
#![tactic(auto)]

mod table;

pub use table::list_table;
