// The range of a slot, and whether a child holds it.
ghost use Rattle.std.specs.Prelude.{◌≡◌, true};
ghost use Rattle.std.proofs.Math.Option.{none};
ghost use Rattle.model.specs.records.Record.{element, elements, edges};
ghost use Rattle.model.specs.inner.Places.{record_at};
ghost use Rattle.model.specs.tables.Tables.{WFPivots, ContainsRange};
ghost use Rattle.model.specs.translation.ParentChild.{ParentKeysInChildRange};
ghost use Rattle.model.specs.calls.Refusals.{first, answer};
ghost use Rattle.model.specs.calls.ParentChildCalls.{three_tables_causes};
ghost use Rattle.parent_child.specs.Under.{Slot, new_range, long_range_causes, asked_causes};

use model::{EdgeKind, RECORD_SIZE, Refusal};

// Whether the child holds the range between what two records stand for.
#[tactic(auto, using(crate::proofs::Rules::ask_range))]
fn ask_range(child: &[u8], left: &[u8], right: &[u8]) -> bool
    requires { WFPivots (elements child.now) ≡ true }
    ensures { result ≡ ContainsRange (elements child.now) (element left.now) (element right.now) }
{
    if keys::is_below(left, records::record_at(child, 0)) {
        return false;
    }
    let last = child.len() / RECORD_SIZE - 1;
    !keys::is_below(records::record_at(child, last), right)
}

// Whether the child holds the range between two records that stand one after the other.
fn ask_pair(child: &[u8], pair: &[u8]) -> bool
    requires { WFPivots (elements child.now) ≡ true }
    ensures { result ≡ ContainsRange (elements child.now) (element (record_at pair.now 0)) (element (record_at pair.now 1)) }
{
    ask_range(
        child,
        records::record_at(pair, 0),
        records::record_at(pair, 1),
    )
}

// Whether the child holds the range between two pivots, the range's prefix changed to the edge. Refuses 8.
#[tactic(auto, using(crate::proofs::Rules::ask_under))]
fn ask_under(child: &[u8], left: &[u8], right: &[u8], edge: &[u8]) -> Result<bool, Refusal>
    requires { (WFPivots (elements child.now) ≡ true) × (Slot left.now right.now edge.now) }
    ensures { result ≡ answer (long_range_causes (new_range left.now right.now edge.now)) (ContainsRange (elements child.now) (new_range left.now right.now edge.now).left (new_range left.now right.now edge.now).right) }
{
    let from = records::key_bytes(left);
    let n = range_prefix::range_prefix_len(from, right);
    let mut made = [0u8; 2 * RECORD_SIZE];
    pivot_pair::translate_pivot_pair(from, right, &from[..n], records::key_bytes(edge), &mut made)?;
    Ok(ask_pair(child, &made))
}

// Cause 6 of the slot, and 8 of its bounds under its edge; else whether the child holds the range between them.
#[tactic(auto, using(crate::proofs::Rules::ask_slot))]
pub(crate) fn ask_slot(
    parent_pivots: &[u8],
    parent_edges: &[u8],
    child_pivots: &[u8],
    slot: usize,
) -> Result<bool, Refusal>
    requires { first (three_tables_causes parent_pivots.now parent_edges.now child_pivots.now) ≡ none }
    ensures { result ≡ answer (asked_causes parent_pivots.now parent_edges.now slot) (ParentKeysInChildRange (elements parent_pivots.now) (edges parent_edges.now) (elements child_pivots.now) slot) }
{
    if parent_edges.len() / RECORD_SIZE <= slot {
        return Err(Refusal::NoSuchSlot);
    }
    let left = records::record_at(parent_pivots, slot);
    let right = records::record_at(parent_pivots, slot + 1);
    let edge = records::record_at(parent_edges, slot);
    match records::edge_kind(edge) {
        EdgeKind::Prefix(_) => ask_under(child_pivots, left, right, edge),
        EdgeKind::Absent => Ok(ask_range(child_pivots, left, right)),
    }
}
