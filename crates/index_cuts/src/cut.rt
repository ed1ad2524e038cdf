// The cut on the left and on the right.
ghost use Rattle.std.specs.Prelude.{◌≡◌, true, false};
ghost use Rattle.model.specs.records.Record.{elements};
ghost use Rattle.model.specs.cuts.Sides.{inside, cutoff};
ghost use Rattle.model.specs.calls.Refusals.{answer};
ghost use Rattle.model.specs.calls.TableCalls.{slot_causes};
ghost use Rattle.model.specs.calls.IndexCalls.{cut_index_answer, cut_index_leaves_bucket, cut_index_leaves_index};

use index_writes::write_side;
use model::{ENTRY_SIZE, MAX_LEN, PLACE_SIZE, Refusal};

// The slot in which a left or a right cut at the key falls. Refuses 1, 2, 3 and 5.
fn cut_slot(pivots: &[u8], k: &[u8], left: bool) -> Result<usize, Refusal>
    ensures { result ≡ answer (slot_causes pivots.now k.now (inside left (elements pivots.now) k.now)) (cutoff left (elements pivots.now) k.now) }
{
    if left {
        return routing::cutoff_for_left(pivots, k);
    }
    routing::cutoff_for_right(pivots, k)
}

// A cut in slot c. The left takes the places up to that of the slot's end, the right those from its beginning on.
#[tactic(auto, using(crate::proofs::Rules::cut_at))]
fn cut_at(
    pivots: &[u8],
    bucket: &[u8],
    index: &[u8],
    k: &[u8],
    c: usize,
    left: bool,
    dest_bucket: &mut [u8],
    dest_index: &mut [u8],
) -> Result<usize, Refusal>
    requires { (inside left (elements pivots.now) k.now ≡ true) × (c ≡ cutoff left (elements pivots.now) k.now) }
    ensures answered { result ≡ cut_index_answer left pivots.now bucket.now index.now k.now dest_bucket.old dest_index.old }
    ensures bucket { dest_bucket.new ≡ cut_index_leaves_bucket left pivots.now bucket.now index.now k.now dest_bucket.old dest_index.old }
    ensures index { dest_index.new ≡ cut_index_leaves_index left pivots.now bucket.now index.now k.now dest_bucket.old dest_index.old }
{
    let n = indexes::check_side(pivots, bucket, index, k, false)?;
    let cut = n * ENTRY_SIZE;
    if left {
        let end = (c + 2) * PLACE_SIZE;
        return write_side(
            &bucket[..cut],
            &index[..end],
            n,
            left,
            dest_bucket,
            dest_index,
        );
    }
    let at = c * PLACE_SIZE;
    write_side(
        &bucket[cut..],
        &index[at..],
        n,
        left,
        dest_bucket,
        dest_index,
    )
}

// A cut at the key, on the left or on the right.
#[tactic(auto, using(crate::proofs::Rules::cut))]
fn cut(
    pivots: &[u8],
    bucket: &[u8],
    index: &[u8],
    k: &[u8],
    left: bool,
    dest_bucket: &mut [u8],
    dest_index: &mut [u8],
) -> Result<usize, Refusal>
    ensures answered { result ≡ cut_index_answer left pivots.now bucket.now index.now k.now dest_bucket.old dest_index.old }
    ensures bucket { dest_bucket.new ≡ cut_index_leaves_bucket left pivots.now bucket.now index.now k.now dest_bucket.old dest_index.old }
    ensures index { dest_index.new ≡ cut_index_leaves_index left pivots.now bucket.now index.now k.now dest_bucket.old dest_index.old }
{
    match cut_slot(pivots, k, left) {
        Ok(c) => cut_at(pivots, bucket, index, k, c, left, dest_bucket, dest_index),
        // A cause of pivots and key is told, or the key's 5, which comes behind the bucket's 1, 2 and 14.
        Err(_) => { indexes::check_given(pivots, bucket, index, MAX_LEN < k.len(), true) }
    }
}

// The entries below the key, and the index that belongs to them and the left cut of the table, at the heads of the two
// destinations. Answers the number of entries. Refuses 1, 2, 3, 14, 5, 15 and 10. Two names, since C calls both.
pub fn cut_index_left(
    pivots: &[u8],
    bucket: &[u8],
    index: &[u8],
    key: &[u8],
    dest_bucket: &mut [u8],
    dest_index: &mut [u8],
) -> Result<usize, Refusal>
    ensures answered { result ≡ cut_index_answer true pivots.now bucket.now index.now key.now dest_bucket.old dest_index.old }
    ensures bucket { dest_bucket.new ≡ cut_index_leaves_bucket true pivots.now bucket.now index.now key.now dest_bucket.old dest_index.old }
    ensures index { dest_index.new ≡ cut_index_leaves_index true pivots.now bucket.now index.now key.now dest_bucket.old dest_index.old }
{
    cut(pivots, bucket, index, key, true, dest_bucket, dest_index)
}

// The entries not below the key, and the index that belongs to them and the right cut of the table, at the heads of the
// two destinations. Answers the number of entries. Refuses 1, 2, 3, 14, 5, 15 and 10.
pub fn cut_index_right(
    pivots: &[u8],
    bucket: &[u8],
    index: &[u8],
    key: &[u8],
    dest_bucket: &mut [u8],
    dest_index: &mut [u8],
) -> Result<usize, Refusal>
    ensures answered { result ≡ cut_index_answer false pivots.now bucket.now index.now key.now dest_bucket.old dest_index.old }
    ensures bucket { dest_bucket.new ≡ cut_index_leaves_bucket false pivots.now bucket.now index.now key.now dest_bucket.old dest_index.old }
    ensures index { dest_index.new ≡ cut_index_leaves_index false pivots.now bucket.now index.now key.now dest_bucket.old dest_index.old }
{
    cut(pivots, bucket, index, key, false, dest_bucket, dest_index)
}
