// build_index.
ghost use Rattle.std.specs.Prelude.{◌≡◌};
ghost use Rattle.model.specs.calls.IndexCalls.{build_index_answer, build_index_leaves};

use crate::entry::entries_outside;
use crate::merge::write_index;
use entry_order::check_rising;
use model::{ENTRY_SIZE, PLACE_SIZE, Refusal};

// The index that belongs to a table and a bucket: for each pivot the number of entries below it, at the head of dest.
// Answers the total. Refuses 1, 2, 3, 14, 5 and 10.
#[tactic(auto, using(crate::proofs::Rules::build_index))]
pub fn build_index(pivots: &[u8], bucket: &[u8], dest: &mut [u8]) -> Result<usize, Refusal>
    ensures answered { result ≡ build_index_answer pivots.now bucket.now dest.old }
    ensures written { dest.new ≡ build_index_leaves pivots.now bucket.now dest.old }
{
    let count = check_rising(pivots, bucket, false)?;
    if entries_outside(pivots, bucket) {
        return Err(Refusal::OutOfRange);
    }
    if dest.len() < count * PLACE_SIZE {
        return Err(Refusal::NoRoom);
    }
    write_index(pivots, bucket, dest);
    Ok(bucket.len() / ENTRY_SIZE)
}
