// The cut on the left and on the right.
ghost use Rattle.std.specs.Prelude.{◌≡◌, true, false, length};
ghost use Rattle.model.specs.records.Record.{encode_edge, encode_all, encode_edges};
ghost use Rattle.model.specs.tables.Tables.{short_edge};
ghost use Rattle.model.specs.calls.Refusals.{answer, leaves};
ghost use Rattle.model.specs.calls.CutCalls.{cut_pivots, cut_edges, write_causes, cut_answer, cut_leaves_pivots, cut_leaves_edges};
ghost use Rattle.slot_edges.specs.Slot.{Found, edge_cut};

use model::{RECORD_SIZE, Refusal};

// Cause 10 of a cut in slot c whose edge is made; else its pivots and edges at the heads of the destinations.
#[tactic(auto, using(crate::proofs::Rules::write_at))]
fn write_at(
    pivots: &[u8],
    edges: &[u8],
    k: &[u8],
    c: usize,
    left: bool,
    made: &[u8],
    dest_pivots: &mut [u8],
    dest_edges: &mut [u8],
) -> Result<usize, Refusal>
    requires { (Found left pivots.now edges.now k.now c) × (short_edge (edge_cut left pivots.now edges.now k.now) ≡ true) × (made.now ≡ encode_edge (edge_cut left pivots.now edges.now k.now)) }
    ensures answered { result ≡ answer (write_causes (cut_pivots left pivots.now k.now) (cut_edges left pivots.now edges.now k.now) dest_pivots.old dest_edges.old) (length (cut_pivots left pivots.now k.now)) }
    ensures pivots { dest_pivots.new ≡ leaves (write_causes (cut_pivots left pivots.now k.now) (cut_edges left pivots.now edges.now k.now) dest_pivots.old dest_edges.old) (encode_all (cut_pivots left pivots.now k.now)) dest_pivots.old }
    ensures edges { dest_edges.new ≡ leaves (write_causes (cut_pivots left pivots.now k.now) (cut_edges left pivots.now edges.now k.now) dest_pivots.old dest_edges.old) (encode_edges (cut_edges left pivots.now edges.now k.now)) dest_edges.old }
{
    let pivot = records::record_of(k.len() as u16, k);
    let none = &k[..0];
    let at = c * RECORD_SIZE;
    let next = at + RECORD_SIZE;
    if left {
        return table_writes::write_table(
            &pivots[..next],
            &pivot,
            none,
            &edges[..at],
            made,
            none,
            dest_pivots,
            dest_edges,
        );
    }
    table_writes::write_table(
        none,
        &pivot,
        &pivots[next..],
        none,
        made,
        &edges[next..],
        dest_pivots,
        dest_edges,
    )
}

// Causes 8 and 10 of a cut in slot c; else its pivots and edges at the heads of the destinations.
#[tactic(auto, using(crate::proofs::Rules::cut_at))]
fn cut_at(
    pivots: &[u8],
    edges: &[u8],
    k: &[u8],
    c: usize,
    left: bool,
    dest_pivots: &mut [u8],
    dest_edges: &mut [u8],
) -> Result<usize, Refusal>
    requires { Found left pivots.now edges.now k.now c }
    ensures answered { result ≡ answer (write_causes (cut_pivots left pivots.now k.now) (cut_edges left pivots.now edges.now k.now) dest_pivots.old dest_edges.old) (length (cut_pivots left pivots.now k.now)) }
    ensures pivots { dest_pivots.new ≡ leaves (write_causes (cut_pivots left pivots.now k.now) (cut_edges left pivots.now edges.now k.now) dest_pivots.old dest_edges.old) (encode_all (cut_pivots left pivots.now k.now)) dest_pivots.old }
    ensures edges { dest_edges.new ≡ leaves (write_causes (cut_pivots left pivots.now k.now) (cut_edges left pivots.now edges.now k.now) dest_pivots.old dest_edges.old) (encode_edges (cut_edges left pivots.now edges.now k.now)) dest_edges.old }
{
    let mut made = [0u8; RECORD_SIZE];
    // Document 01 asks for let .. else in the cuts, leaving with the inner refusal.
    let cut = slot_edges::slot_edge(pivots, edges, k, c, left, &mut made);
    let Ok(_) = cut else {
        return cut;
    };
    write_at(pivots, edges, k, c, left, &made, dest_pivots, dest_edges)
}

// A cut at the key, on the left or on the right.
#[tactic(auto, using(crate::proofs::Rules::cut))]
fn cut(
    pivots: &[u8],
    edges: &[u8],
    k: &[u8],
    left: bool,
    dest_pivots: &mut [u8],
    dest_edges: &mut [u8],
) -> Result<usize, Refusal>
    ensures answered { result ≡ cut_answer left pivots.now edges.now k.now dest_pivots.old dest_edges.old }
    ensures pivots { dest_pivots.new ≡ cut_leaves_pivots left pivots.now edges.now k.now dest_pivots.old dest_edges.old }
    ensures edges { dest_edges.new ≡ cut_leaves_edges left pivots.now edges.now k.now dest_pivots.old dest_edges.old }
{
    // As above, let .. else.
    let routed = routing::slot_with_edges(pivots, edges, k, left);
    let Ok(c) = routed else {
        return routed;
    };
    cut_at(pivots, edges, k, c, left, dest_pivots, dest_edges)
}

// SplitLeft with SplitLeftEdges: the pivots below the key and the key, and their edges, at the heads of the two
// destinations. Answers the number of pivots. Refuses 1, 2, 3, 4, 5, 8 and 10. Two names, since C calls both.
pub fn split_left(
    pivots: &[u8],
    edges: &[u8],
    key: &[u8],
    dest_pivots: &mut [u8],
    dest_edges: &mut [u8],
) -> Result<usize, Refusal>
    ensures answered { result ≡ cut_answer true pivots.now edges.now key.now dest_pivots.old dest_edges.old }
    ensures pivots { dest_pivots.new ≡ cut_leaves_pivots true pivots.now edges.now key.now dest_pivots.old dest_edges.old }
    ensures edges { dest_edges.new ≡ cut_leaves_edges true pivots.now edges.now key.now dest_pivots.old dest_edges.old }
{
    cut(pivots, edges, key, true, dest_pivots, dest_edges)
}

// SplitRight with SplitRightEdges: the key and the pivots above it, and their edges, at the heads of the two
// destinations. Answers the number of pivots. Refuses 1, 2, 3, 4, 5, 8 and 10.
pub fn split_right(
    pivots: &[u8],
    edges: &[u8],
    key: &[u8],
    dest_pivots: &mut [u8],
    dest_edges: &mut [u8],
) -> Result<usize, Refusal>
    ensures answered { result ≡ cut_answer false pivots.now edges.now key.now dest_pivots.old dest_edges.old }
    ensures pivots { dest_pivots.new ≡ cut_leaves_pivots false pivots.now edges.now key.now dest_pivots.old dest_edges.old }
    ensures edges { dest_edges.new ≡ cut_leaves_edges false pivots.now edges.now key.now dest_pivots.old dest_edges.old }
{
    cut(pivots, edges, key, false, dest_pivots, dest_edges)
}
