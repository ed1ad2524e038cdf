// Pivots and edges under another prefix: the edges' call, of a crate of its own, is handed on. No public function has a
// `requires`.
#![tactic(auto)]

mod change;
mod pivots;

pub use filled_edges::translate_edges;
pub use pivots::translate_pivots;
