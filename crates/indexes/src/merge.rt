// The index of a bucket, by one pass over pivots and entries together.
ghost use Rattle.std.specs.Prelude.{◌≡◌, ◌*◌, ◌≤◌, length};
ghost use Rattle.model.specs.records.Record.{elements};
ghost use Rattle.model.specs.buckets.Index.{place_size};
ghost use Rattle.model.specs.calls.Refusals.{over};
ghost use Rattle.model.specs.calls.IndexCalls.{index_bytes};
ghost use Rattle.entry_order.specs.Rising.{CheckedBoth};

use crate::place::{place_from, put_place};
use model::{PLACE_SIZE, RECORD_SIZE};

// Writes the index of a checked bucket to the head of dest. No entry is compared again for a later pivot once it is below one.
#[tactic(auto, using(crate::proofs::Rules::write_index))]
pub(crate) fn write_index(pivots: &[u8], bucket: &[u8], dest: &mut [u8])
    requires { CheckedBoth pivots.now bucket.now × (length (elements pivots.now) * place_size ≤ length dest.old) }
    ensures { dest.new ≡ over (index_bytes pivots.now bucket.now) dest.old }
{
    let slots = pivots.len() / RECORD_SIZE - 1;
    let mut below = 0;
    for i in 0..slots + 1 {
        below = place_from(bucket, records::record_at(pivots, i), below);
        let at = i * PLACE_SIZE;
        put_place(below as u16, &mut dest[at..]);
    }
}
