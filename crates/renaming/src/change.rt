// The pivots but the last, with their prefix changed.
ghost use Rattle.std.specs.Prelude.{◌≡◌, ◌+◌, ◌/◌, ◌≤◌, ◌<◌, length};
ghost use Rattle.model.specs.records.Record.{record_size, elements, encode, encode_all};
ghost use Rattle.model.specs.tables.Tables.{pivot_at};
ghost use Rattle.model.specs.translation.Renaming.{TranslateElement};
ghost use Rattle.model.specs.calls.Refusals.{over};
ghost use Rattle.changed_pivots.specs.Renamed.{changed_pivots};
ghost use Rattle.renaming.specs.Change.{Changeable};

use model::RECORD_SIZE;
use records::put_joined;

// The record of pivot i, not the last, with its prefix changed, at the head of dest.
#[tactic(auto, using(crate::proofs::Rules::put_pivot))]
pub(crate) fn put_pivot(pivots: &[u8], prefix: &[u8], new_prefix: &[u8], i: usize, dest: &mut [u8])
    requires { (Changeable pivots.now prefix.now new_prefix.now) × (i + 1 < length pivots.now / record_size) × (record_size ≤ length dest.old) }
    ensures { dest.new ≡ over (encode (TranslateElement prefix.now new_prefix.now (pivot_at (elements pivots.now) i))) dest.old }
{
    let k = records::key_bytes(records::record_at(pivots, i));
    let from = prefix.len();
    put_joined(new_prefix, &k[from..], dest);
}

// The records of all pivots but the last, in turn.
#[tactic(auto, using(crate::proofs::Rules::write_changed))]
pub(crate) fn write_changed(pivots: &[u8], prefix: &[u8], new_prefix: &[u8], dest: &mut [u8])
    requires { (Changeable pivots.now prefix.now new_prefix.now) × (length pivots.now ≤ length dest.old) }
    ensures { dest.new ≡ over (encode_all (changed_pivots pivots.now prefix.now new_prefix.now)) dest.old }
{
    let last = pivots.len() / RECORD_SIZE - 1;
    for i in 0..last {
        let at = i * RECORD_SIZE;
        put_pivot(pivots, prefix, new_prefix, i, &mut dest[at..]);
    }
}
