// Two tables with edges put together, where one ends and the other begins. No public function has a `requires`.
#![tactic(auto)]

mod write;

ghost use Rattle.std.specs.Prelude.{◌≡◌};
ghost use Rattle.model.specs.calls.JoinCalls.{join_answer, join_leaves_pivots, join_leaves_edges};

use meetings::check_meeting;
use model::Refusal;
use write::write_joined;

// The first table's pivots and then the second's but for the one where they meet, and the edges of both, at the heads
// of the two destinations. Answers the number of pivots. Refuses 1, 2, 3, 4, 13, 12 and 10.
#[tactic(auto, using(crate::proofs::Rules::join))]
pub fn join(
    first_pivots: &[u8],
    first_edges: &[u8],
    second_pivots: &[u8],
    second_edges: &[u8],
    dest_pivots: &mut [u8],
    dest_edges: &mut [u8],
) -> Result<usize, Refusal>
    ensures answered { result ≡ join_answer first_pivots.now first_edges.now second_pivots.now second_edges.now dest_pivots.old dest_edges.old }
    ensures pivots { dest_pivots.new ≡ join_leaves_pivots first_pivots.now first_edges.now second_pivots.now second_edges.now dest_pivots.old dest_edges.old }
    ensures edges { dest_edges.new ≡ join_leaves_edges first_pivots.now first_edges.now second_pivots.now second_edges.now dest_pivots.old dest_edges.old }
{
    check_meeting(first_pivots, first_edges, second_pivots, second_edges)?;
    write_joined(
        first_pivots,
        first_edges,
        second_pivots,
        second_edges,
        dest_pivots,
        dest_edges,
    )
}
