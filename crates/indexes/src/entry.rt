// Whether the entries of a bucket lie inside a table.
ghost use Rattle.std.specs.Prelude.{◌≡◌, true, not};
ghost use Rattle.model.specs.records.Record.{elements};
ghost use Rattle.model.specs.tables.Tables.{WFPivots};
ghost use Rattle.model.specs.buckets.Bucket.{entries};
ghost use Rattle.model.specs.calls.IndexCalls.{entries_inside};
ghost use Rattle.entry_order.specs.Rising.{Rising};

use entry_order::record_at;
use model::{ENTRY_SIZE, RECORD_SIZE};

// Whether an entry is outside the table. Entries that rise are inside where the first and the last are.
#[tactic(auto, using(crate::proofs::Rules::entries_outside))]
pub(crate) fn entries_outside(pivots: &[u8], bucket: &[u8]) -> bool
    requires { (WFPivots (elements pivots.now) ≡ true) × Rising bucket.now }
    ensures { result ≡ not (entries_inside (elements pivots.now) (entries bucket.now)) }
{
    let count = bucket.len() / ENTRY_SIZE;
    if count == 0 {
        return false;
    }
    let last = pivots.len() / RECORD_SIZE - 1;
    if keys::is_below(record_at(bucket, 0), records::record_at(pivots, 0)) {
        return true;
    }
    !keys::is_below(
        record_at(bucket, count - 1),
        records::record_at(pivots, last),
    )
}
