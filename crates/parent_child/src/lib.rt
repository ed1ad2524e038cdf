// Whether a child's table holds what a parent's slot leads to. No public function has a `requires`.
#![tactic(auto)]

mod slot;

ghost use Rattle.std.specs.Prelude.{◌≡◌, ◌/◌, length};
ghost use Rattle.model.specs.records.Record.{record_size};
ghost use Rattle.model.specs.calls.Refusals.{answer};
ghost use Rattle.model.specs.calls.ParentChildCalls.{three_tables_causes, parent_child_answer};

use model::Refusal;
use slot::ask_slot;

// Causes 1 to 3 of all three tables, then 4 of the parent; else the count of the parent's pivots.
#[tactic(auto, using(crate::proofs::Rules::check_tables))]
fn check_tables(
    parent_pivots: &[u8],
    parent_edges: &[u8],
    child_pivots: &[u8],
) -> Result<usize, Refusal>
    ensures { result ≡ answer (three_tables_causes parent_pivots.now parent_edges.now child_pivots.now) (length parent_pivots.now / record_size) }
{
    let parent = table_checks::check_table(parent_pivots, parent_edges, false, false);
    let child = table_checks::check_pivots(child_pivots, false, false);
    refusals::earlier(parent, child)
}

// ParentKeysInChildRange: whether the child's table holds the range of the parent's slot, translated by the slot's edge.
// Refuses 1, 2, 3, 4, 6 and 8.
#[tactic(auto, using(crate::proofs::Rules::parent_keys_in_child_range))]
pub fn parent_keys_in_child_range(
    parent_pivots: &[u8],
    parent_edges: &[u8],
    child_pivots: &[u8],
    slot: usize,
) -> Result<bool, Refusal>
    ensures { result ≡ parent_child_answer parent_pivots.now parent_edges.now child_pivots.now slot }
{
    check_tables(parent_pivots, parent_edges, child_pivots)?;
    ask_slot(parent_pivots, parent_edges, child_pivots, slot)
}
