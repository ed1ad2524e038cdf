// translate_index.
ghost use Rattle.std.specs.Prelude.{◌≡◌, cond};
ghost use Rattle.std.proofs.Math.Option.{none};
ghost use Rattle.model.specs.declared.Refusal.TheVariants.{TooLong, NoRoom};
ghost use Rattle.model.specs.calls.Refusals.{first};
ghost use Rattle.model.specs.calls.BucketCalls.{bucket_long, rename_causes};
ghost use Rattle.model.specs.calls.IndexCalls.{translate_index_answer, translate_index_leaves_bucket, translate_index_leaves_index};

use crate::kept::write_kept;
use model::Refusal;

// What is answered where the index has no room: 8 of the entries kept, else 10. A destination as long as the bucket
// always has room for these, so that it fits just where there is no 8.
#[tactic(auto, using(crate::proofs::Rules::no_room))]
fn no_room(bucket: &[u8], prefix: &[u8], new_prefix: &[u8]) -> Refusal
    requires { first (rename_causes bucket.now prefix.now new_prefix.now) ≡ none }
    ensures { result ≡ cond (bucket_long bucket.now prefix.now new_prefix.now) TooLong NoRoom }
{
    match buckets::translate_bucket_will_fit(bucket, prefix, new_prefix, bucket.len()) {
        Ok(true) => Refusal::NoRoom,
        Ok(false) => Refusal::TooLong,
        Err(r) => r,
    }
}

// The entries that begin with the prefix, in turn under the new one, and the places where those of each slot then begin
// and the total, at the heads of the two destinations. Answers the total. Refuses 1, 2, 3, 14, 5, 15, 8 and 10.
#[tactic(auto, using(crate::proofs::Rules::translate_index))]
pub fn translate_index(
    pivots: &[u8],
    bucket: &[u8],
    index: &[u8],
    prefix: &[u8],
    new_prefix: &[u8],
    dest_bucket: &mut [u8],
    dest_index: &mut [u8],
) -> Result<usize, Refusal>
    ensures answered { result ≡ translate_index_answer pivots.now bucket.now index.now prefix.now new_prefix.now dest_bucket.old dest_index.old }
    ensures bucket { dest_bucket.new ≡ translate_index_leaves_bucket pivots.now bucket.now index.now prefix.now new_prefix.now dest_bucket.old dest_index.old }
    ensures index { dest_index.new ≡ translate_index_leaves_index pivots.now bucket.now index.now prefix.now new_prefix.now dest_bucket.old dest_index.old }
{
    let wrong = buckets::too_long(prefix, new_prefix);
    indexes::check_given(pivots, bucket, index, wrong, false)?;
    if dest_index.len() < index.len() {
        return Err(no_room(bucket, prefix, new_prefix));
    }
    let written = buckets::translate_bucket(bucket, prefix, new_prefix, dest_bucket)?;
    write_kept(bucket, index, prefix, dest_index);
    Ok(written)
}
