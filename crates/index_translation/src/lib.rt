// All slots' entries under another prefix, in one bucket, with the places where each begin. No public function has a `requires`.
#![tactic(auto)]

mod kept;
mod translate;

pub use translate::translate_index;
