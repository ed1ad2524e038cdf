// The pivots under another prefix, up to a given end.
ghost use Rattle.std.specs.Prelude.{◌≡◌, ◌≤◌, length};
ghost use Rattle.model.specs.keys.Order.{lt};
ghost use Rattle.model.specs.records.Record.{element, encode_all};
ghost use Rattle.model.specs.calls.Refusals.{answer, leaves, over};
ghost use Rattle.model.specs.calls.RenamingCalls.{new_pivots, last_translated, pivots_answer, pivots_leaves};
ghost use Rattle.changed_pivots.specs.Renamed.{Given};
ghost use Rattle.renaming.specs.Change.{end_causes, Changeable};

use crate::change::{put_pivot, write_changed};
use changed_pivots::check_changed;
use model::{RECORD_SIZE, Refusal};

// Whether the last translated key is below the end.
#[tactic(auto, using(crate::proofs::Rules::ends_above))]
fn ends_above(pivots: &[u8], prefix: &[u8], new_prefix: &[u8], end: &[u8]) -> bool
    requires { Changeable pivots.now prefix.now new_prefix.now }
    ensures { result ≡ lt (last_translated pivots.now prefix.now new_prefix.now) (element end.now) }
{
    let last = pivots.len() / RECORD_SIZE - 2;
    let mut made = [0u8; RECORD_SIZE];
    put_pivot(pivots, prefix, new_prefix, last, &mut made);
    keys::is_below(&made, end)
}

// The records of the new pivots, the end's as the last.
#[tactic(auto, using(crate::proofs::Rules::write_pivots))]
fn write_pivots(pivots: &[u8], prefix: &[u8], new_prefix: &[u8], end: &[u8], dest: &mut [u8])
    requires { (Given pivots.now prefix.now new_prefix.now end.now) × (Changeable pivots.now prefix.now new_prefix.now) × (length pivots.now ≤ length dest.old) }
    ensures { dest.new ≡ over (encode_all (new_pivots pivots.now prefix.now new_prefix.now end.now)) dest.old }
{
    let at = pivots.len() - RECORD_SIZE;
    write_changed(pivots, prefix, new_prefix, dest);
    records::put_record(records::length_field(end), &end[2..], &mut dest[at..]);
}

// Causes 9 and 10; else the new pivots at the head of dest.
#[tactic(auto, using(crate::proofs::Rules::put_pivots))]
fn put_pivots(
    pivots: &[u8],
    prefix: &[u8],
    new_prefix: &[u8],
    end: &[u8],
    dest: &mut [u8],
) -> Result<usize, Refusal>
    requires { (Given pivots.now prefix.now new_prefix.now end.now) × (Changeable pivots.now prefix.now new_prefix.now) }
    ensures answered { result ≡ answer (end_causes pivots.now prefix.now new_prefix.now end.now dest.old) (length (new_pivots pivots.now prefix.now new_prefix.now end.now)) }
    ensures written { dest.new ≡ leaves (end_causes pivots.now prefix.now new_prefix.now end.now dest.old) (encode_all (new_pivots pivots.now prefix.now new_prefix.now end.now)) dest.old }
{
    if !ends_above(pivots, prefix, new_prefix, end) {
        return Err(Refusal::NotBelow);
    }
    if dest.len() < pivots.len() {
        return Err(Refusal::NoRoom);
    }
    write_pivots(pivots, prefix, new_prefix, end, dest);
    Ok(pivots.len() / RECORD_SIZE)
}

// TranslatePivots: the pivots with prefix changed to new_prefix in each but the last, and the given end in its place,
// at the head of dest. Answers the number of pivots written. Refuses 1, 2, 3, 7, 8, 9 and 10.
#[tactic(auto, using(crate::proofs::Rules::translate_pivots))]
pub fn translate_pivots(
    pivots: &[u8],
    prefix: &[u8],
    new_prefix: &[u8],
    end: &[u8],
    dest: &mut [u8],
) -> Result<usize, Refusal>
    ensures answered { result ≡ pivots_answer pivots.now prefix.now new_prefix.now end.now dest.old }
    ensures written { dest.new ≡ pivots_leaves pivots.now prefix.now new_prefix.now end.now dest.old }
{
    check_changed(pivots, prefix, new_prefix, end)?;
    put_pivots(pivots, prefix, new_prefix, end, dest)
}
