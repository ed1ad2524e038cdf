// What a bucket keeps under another prefix: how many entries, and whether their keys fit; and the room they need.
// No public function has a `requires`.
#![tactic(auto)]

mod limits;

ghost use Rattle.std.specs.Prelude.{◌≡◌, length};
ghost use Rattle.model.specs.calls.Refusals.{answer};
ghost use Rattle.model.specs.calls.BucketCalls.{new_bucket};
ghost use Rattle.bucket_measures.specs.Kept.{kept_of, long_kept};

use entries::{begins_with, entry_at, key_of};
pub use limits::{too_long, too_short};
use model::{ENTRY_SIZE, MAX_LEN, Refusal};

// Cause 8 of one entry; else 1 where it is kept, and 0 where its key doesn't begin with the prefix. A new prefix that is too
// long itself counts as one of 65 bytes, so that the sum can't wrap.
#[tactic(auto, using(crate::proofs::Rules::measure_entry))]
fn measure_entry(entry: &[u8], prefix: &[u8], new_prefix: &[u8]) -> Result<usize, Refusal>
    ensures { result ≡ answer (long_kept (kept_of entry.now prefix.now new_prefix.now)) (length (kept_of entry.now prefix.now new_prefix.now)) }
{
    if !begins_with(entry, prefix) {
        return Ok(0);
    }
    let n = new_prefix.len().min(MAX_LEN + 1);
    if MAX_LEN < n + (key_of(entry).len() - prefix.len()) {
        return Err(Refusal::TooLong);
    }
    Ok(1)
}

// Cause 8 of the entries that are kept; else their count. The bucket isn't checked.
#[tactic(auto, using(crate::proofs::Rules::measure))]
pub fn measure(bucket: &[u8], prefix: &[u8], new_prefix: &[u8]) -> Result<usize, Refusal>
    ensures { result ≡ answer (long_kept (new_bucket bucket.now prefix.now new_prefix.now)) (length (new_bucket bucket.now prefix.now new_prefix.now)) }
{
    let mut kept = 0;
    for i in 0..bucket.len() / ENTRY_SIZE {
        kept += measure_entry(entry_at(bucket, i), prefix, new_prefix)?;
    }
    Ok(kept)
}
