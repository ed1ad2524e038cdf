// The entries of a bucket: their check, each at its place, and its key. No public function has a `requires`.
#![tactic(auto)]

mod check;
mod entry;
mod key;

pub use check::check_bucket;
pub use entry::entry_at;
pub use key::{begins_with, key_of};
