// The check of the index given with pivots and a bucket.
ghost use Rattle.std.specs.Prelude.{◌≡◌, not, ◌||◌, length};
ghost use Rattle.model.specs.keys.Key.{too_long};
ghost use Rattle.model.specs.keys.Order.{key};
ghost use Rattle.model.specs.records.Record.{elements};
ghost use Rattle.model.specs.buckets.Bucket.{entries};
ghost use Rattle.model.specs.buckets.Index.{entries_below};
ghost use Rattle.model.specs.calls.Refusals.{answer};
ghost use Rattle.model.specs.calls.IndexCalls.{entries_inside, wrong_index, given_causes, check_index_answer};
ghost use Rattle.entry_order.specs.Rising.{CheckedBoth};

use crate::entry::entries_outside;
use crate::merge::write_index;
use crate::place::place_from;
use entry_order::check_rising;
use model::{ENTRY_SIZE, MAX_LEN, MAX_PIVOTS, PLACE_SIZE, RECORD_SIZE, Refusal};

// Cause 5: whether an entry is outside the table, or another argument, as the caller says.
#[tactic(auto, using(crate::proofs::Rules::is_outside))]
fn is_outside(pivots: &[u8], bucket: &[u8], outside: bool) -> bool
    requires { CheckedBoth pivots.now bucket.now }
    ensures { result ≡ (outside || not (entries_inside (elements pivots.now) (entries bucket.now))) }
{
    if outside {
        return true;
    }
    entries_outside(pivots, bucket)
}

// Cause 15: whether an index isn't the one that belongs to checked pivots and bucket.
#[tactic(auto, using(crate::proofs::Rules::is_other))]
fn is_other(pivots: &[u8], bucket: &[u8], index: &[u8]) -> bool
    requires { CheckedBoth pivots.now bucket.now }
    ensures { result ≡ wrong_index pivots.now bucket.now index.now }
{
    let end = pivots.len() / RECORD_SIZE * PLACE_SIZE;
    if index.len() != end {
        return true;
    }
    let mut built = [0u8; MAX_PIVOTS * PLACE_SIZE];
    write_index(pivots, bucket, &mut built);
    !scan::is_prefix_by_words(index, &built[..end])
}

// Causes 1, 2, 3, 14, 5 and 15; else the total. The caller says whether another argument has cause 2, or 5.
#[tactic(auto, using(crate::proofs::Rules::check_given))]
pub fn check_given(
    pivots: &[u8],
    bucket: &[u8],
    index: &[u8],
    wrong: bool,
    outside: bool,
) -> Result<usize, Refusal>
    ensures { result ≡ answer (given_causes wrong outside pivots.now bucket.now index.now) (length (entries bucket.now)) }
{
    check_rising(pivots, bucket, wrong)?;
    let out = is_outside(pivots, bucket, outside);
    let other = is_other(pivots, bucket, index);
    if out {
        return Err(Refusal::OutOfRange);
    }
    if other {
        return Err(Refusal::WrongIndex);
    }
    Ok(bucket.len() / ENTRY_SIZE)
}

// The causes of `check_given` with a key, which the caller says is outside or not; else the number of entries below it.
#[tactic(auto, using(crate::proofs::Rules::check_side))]
pub fn check_side(
    pivots: &[u8],
    bucket: &[u8],
    index: &[u8],
    k: &[u8],
    outside: bool,
) -> Result<usize, Refusal>
    ensures { result ≡ answer (given_causes (too_long k.now) outside pivots.now bucket.now index.now) (length (entries_below (key k.now) (entries bucket.now))) }
{
    check_given(pivots, bucket, index, MAX_LEN < k.len(), outside)?;
    let rec = records::record_of(k.len() as u16, k);
    Ok(place_from(bucket, &rec, 0))
}

// Whether an index is the one that belongs to a table and a bucket. Answers the total. Refuses 1, 2, 3, 14, 5 and 15.
pub fn check_index(pivots: &[u8], bucket: &[u8], index: &[u8]) -> Result<usize, Refusal>
    ensures { result ≡ check_index_answer pivots.now bucket.now index.now }
{
    check_given(pivots, bucket, index, false, false)
}
