// Whether a bucket fits under another prefix. No public function has a `requires`.
#![tactic(auto)]

ghost use Rattle.std.specs.Prelude.{◌≡◌, not, ◌||◌};
ghost use Rattle.model.specs.calls.BucketCalls.{bucket_long, bucket_full, will_fit_answer};

use bucket_measures::{measure, too_long, too_short};
use entries::check_bucket;
use model::Refusal;

// Whether the entries kept fit in keys of 64 bytes and in a destination of so many bytes.
#[tactic(auto, using(crate::proofs::Rules::fits))]
fn fits(bucket: &[u8], prefix: &[u8], new_prefix: &[u8], dest_len: usize) -> bool
    ensures { result ≡ not (bucket_long bucket.now prefix.now new_prefix.now || bucket_full bucket.now prefix.now new_prefix.now dest_len) }
{
    let Ok(kept) = measure(bucket, prefix, new_prefix) else {
        return false;
    };
    !too_short(dest_len, kept)
}

// TranslateBucketWillFit: whether translate_bucket would be accepted with a destination of so many bytes. Refuses 1 and 2.
#[tactic(auto, using(crate::proofs::Rules::translate_bucket_will_fit))]
pub fn translate_bucket_will_fit(
    bucket: &[u8],
    prefix: &[u8],
    new_prefix: &[u8],
    dest_len: usize,
) -> Result<bool, Refusal>
    ensures { result ≡ will_fit_answer bucket.now prefix.now new_prefix.now dest_len }
{
    check_bucket(bucket, too_long(prefix, new_prefix))?;
    Ok(fits(bucket, prefix, new_prefix, dest_len))
}
