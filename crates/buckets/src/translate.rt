// TranslateBucket.
ghost use Rattle.std.specs.Prelude.{◌≡◌};
ghost use Rattle.model.specs.calls.BucketCalls.{translate_bucket_answer, translate_bucket_leaves};

use crate::write::put_entries;
use bucket_measures::{measure, too_long, too_short};
use entries::check_bucket;
use model::Refusal;

// TranslateBucket: the entries whose key begins with the prefix, in order, key changed and number the same, at the head of dest.
// Answers the count kept, which is what dest must have room for. Refuses 1, 2, 8 and 10.
#[tactic(auto, using(crate::proofs::Rules::translate_bucket))]
pub fn translate_bucket(
    bucket: &[u8],
    prefix: &[u8],
    new_prefix: &[u8],
    dest: &mut [u8],
) -> Result<usize, Refusal>
    ensures answered { result ≡ translate_bucket_answer bucket.now prefix.now new_prefix.now dest.old }
    ensures written { dest.new ≡ translate_bucket_leaves bucket.now prefix.now new_prefix.now dest.old }
{
    check_bucket(bucket, too_long(prefix, new_prefix))?;
    let kept = measure(bucket, prefix, new_prefix)?;
    if too_short(dest.len(), kept) {
        return Err(Refusal::NoRoom);
    }
    put_entries(bucket, prefix, new_prefix, kept, dest);
    Ok(kept)
}
