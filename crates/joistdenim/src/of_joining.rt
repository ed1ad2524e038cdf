// Two tables put together.
ghost use Rattle.std.specs.Prelude.{◌≡◌};
ghost use Rattle.model.specs.calls.Refusals.{answer_number, told};
ghost use Rattle.model.specs.calls.JoinCalls.{join_answer, join_leaves_pivots, join_leaves_edges};

use answers::tell;

#[unsafe(no_mangle)]
pub extern "C" fn jd_join(
    first_pivots: &[u8],
    first_edges: &[u8],
    second_pivots: &[u8],
    second_edges: &[u8],
    dest_pivots: &mut [u8],
    dest_edges: &mut [u8],
    value: &mut u64,
) -> u32
    ensures number { result ≡ answer_number (join_answer first_pivots.now first_edges.now second_pivots.now second_edges.now dest_pivots.old dest_edges.old) }
    ensures value { value.new ≡ told (join_answer first_pivots.now first_edges.now second_pivots.now second_edges.now dest_pivots.old dest_edges.old) value.old }
    ensures pivots { dest_pivots.new ≡ join_leaves_pivots first_pivots.now first_edges.now second_pivots.now second_edges.now dest_pivots.old dest_edges.old }
    ensures edges { dest_edges.new ≡ join_leaves_edges first_pivots.now first_edges.now second_pivots.now second_edges.now dest_pivots.old dest_edges.old }
{
    tell(
        joining::join(
            first_pivots,
            first_edges,
            second_pivots,
            second_edges,
            dest_pivots,
            dest_edges,
        ),
        value,
    )
}
