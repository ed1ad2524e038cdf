// Buckets under another prefix; and by name whether one would be accepted. No public function has a `requires`.
#![tactic(auto)]

mod translate;
mod write;

pub use bucket_fits::translate_bucket_will_fit;
pub use bucket_measures::too_long;
pub use translate::translate_bucket;
