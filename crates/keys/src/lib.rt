// Keys and max in their order, the key of a record or an entry, and the change of a prefix: the last two are of crates of
// their own, and are handed on. No public function has a `requires`.
#![tactic(auto)]

mod order;

pub use key_parts::{entry_key, entry_key_part, pivot_key, pivot_key_part};
pub use order::{compare, compare_elements, compare_keys, compare_padded, is_below, passes};
pub use prefix_changes::{change_prefix, change_prefix_small};
