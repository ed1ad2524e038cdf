// What a join writes.
ghost use Rattle.std.specs.Prelude.{◌≡◌, length};
ghost use Rattle.std.proofs.Math.Option.{none};
ghost use Rattle.model.specs.records.Record.{encode_all, encode_edges};
ghost use Rattle.model.specs.calls.Refusals.{first, answer, leaves};
ghost use Rattle.model.specs.calls.CutCalls.{write_causes};
ghost use Rattle.model.specs.calls.JoinCalls.{joined_pivots, joined_edges, meeting_causes};

use model::{RECORD_SIZE, Refusal};

// Cause 10 of a join; else the pivots and edges at the heads of the destinations.
#[tactic(auto, using(crate::proofs::Rules::write_joined))]
pub(crate) fn write_joined(
    first_pivots: &[u8],
    first_edges: &[u8],
    second_pivots: &[u8],
    second_edges: &[u8],
    dest_pivots: &mut [u8],
    dest_edges: &mut [u8],
) -> Result<usize, Refusal>
    requires { first (meeting_causes first_pivots.now first_edges.now second_pivots.now second_edges.now) ≡ none }
    ensures answered { result ≡ answer (write_causes (joined_pivots first_pivots.now second_pivots.now) (joined_edges first_edges.now second_edges.now) dest_pivots.old dest_edges.old) (length (joined_pivots first_pivots.now second_pivots.now)) }
    ensures pivots { dest_pivots.new ≡ leaves (write_causes (joined_pivots first_pivots.now second_pivots.now) (joined_edges first_edges.now second_edges.now) dest_pivots.old dest_edges.old) (encode_all (joined_pivots first_pivots.now second_pivots.now)) dest_pivots.old }
    ensures edges { dest_edges.new ≡ leaves (write_causes (joined_pivots first_pivots.now second_pivots.now) (joined_edges first_edges.now second_edges.now) dest_pivots.old dest_edges.old) (encode_edges (joined_edges first_edges.now second_edges.now)) dest_edges.old }
{
    // Between the two stands the second's first record: its edge is new, but its pivot ends the first's already.
    table_writes::write_table(
        first_pivots,
        &second_pivots[..0],
        &second_pivots[RECORD_SIZE..],
        first_edges,
        &second_edges[..RECORD_SIZE],
        &second_edges[RECORD_SIZE..],
        dest_pivots,
        dest_edges,
    )
}
