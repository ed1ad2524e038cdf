// The translation of a key by a table with its edges: the pair of the key's slot, and the key that it makes.
// No public function has a `requires`.
#![tactic(auto)]

mod key;
mod pair;

pub use key::translate_key;
pub use pair::translate;
