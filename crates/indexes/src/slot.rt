// The entries of a slot: their number, and the part of the bucket that they fill.
ghost use Rattle.std.specs.Prelude.{◌≡◌};
ghost use Rattle.model.specs.calls.IndexCalls.{slot_entries_answer, slot_entries_part};

use crate::check::check_index;
use crate::place::place_at;
use model::{ENTRY_SIZE, RECORD_SIZE, Refusal};

// How many entries a slot has. Refuses 1, 2, 3, 14, 5, 15 and 6.
#[tactic(auto, using(crate::proofs::Rules::slot_entries))]
pub fn slot_entries(
    pivots: &[u8],
    bucket: &[u8],
    index: &[u8],
    slot: usize,
) -> Result<usize, Refusal>
    ensures { result ≡ slot_entries_answer pivots.now bucket.now index.now slot }
{
    check_index(pivots, bucket, index)?;
    let slots = pivots.len() / RECORD_SIZE - 1;
    if slots <= slot {
        return Err(Refusal::NoSuchSlot);
    }
    Ok(place_at(index, slot + 1) - place_at(index, slot))
}

// The part of the bucket that a slot's entries fill, or an empty part where slot_entries refuses.
#[tactic(auto, using(crate::proofs::Rules::slot_entries_part))]
pub fn slot_entries_part<'a>(pivots: &[u8], bucket: &'a [u8], index: &[u8], slot: usize) -> &'a [u8]
    ensures { result.now ≡ slot_entries_part pivots.now bucket.now index.now slot }
{
    let counted = slot_entries(pivots, bucket, index, slot);
    let Ok(n) = counted else {
        return &bucket[..0];
    };
    let from = place_at(index, slot) * ENTRY_SIZE;
    let end = from + n * ENTRY_SIZE;
    &bucket[from..end]
}
