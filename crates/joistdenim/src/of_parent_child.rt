// The question of parent and child.
ghost use Rattle.std.specs.Prelude.{◌≡◌};
ghost use Rattle.model.specs.calls.Refusals.{answer_number, told, decided_answer};
ghost use Rattle.model.specs.calls.ParentChildCalls.{parent_child_answer};

use answers::{decided_answer, tell};

#[unsafe(no_mangle)]
pub extern "C" fn jd_parent_keys_in_child_range(
    parent_pivots: &[u8],
    parent_edges: &[u8],
    child_pivots: &[u8],
    slot: u64,
    value: &mut u64,
) -> u32
    ensures number { result ≡ answer_number (decided_answer (parent_child_answer parent_pivots.now parent_edges.now child_pivots.now slot)) }
    ensures value { value.new ≡ told (decided_answer (parent_child_answer parent_pivots.now parent_edges.now child_pivots.now slot)) value.old }
{
    tell(
        decided_answer(parent_child::parent_keys_in_child_range(
            parent_pivots,
            parent_edges,
            child_pivots,
            slot as usize,
        )),
        value,
    )
}
