// A key as a new pivot of a table, with its edges. No public function has a `requires`.
#![tactic(auto)]

ghost use Rattle.std.specs.Prelude.{◌≡◌, true, ◌*◌, length};
ghost use Rattle.model.specs.records.Record.{record_size, encode_all, encode_edges};
ghost use Rattle.model.specs.tables.Tables.{all, short_edge};
ghost use Rattle.model.specs.calls.Refusals.{answer, leaves};
ghost use Rattle.model.specs.calls.CutCalls.{write_causes};
ghost use Rattle.model.specs.calls.InsertionCalls.{inserted_pivots, inserted_edges, insert_answer, insert_leaves_pivots, insert_leaves_edges};
ghost use Rattle.insertion.specs.New.{New, edges_cut, long_edges};

use model::{RECORD_SIZE, Refusal};

// Cause 10 of an insertion into slot c, whose two edges are made; else the pivots and edges at the heads of the
// destinations.
#[tactic(auto, using(crate::proofs::Rules::write_in))]
fn write_in(
    pivots: &[u8],
    edges: &[u8],
    k: &[u8],
    c: usize,
    made: &[u8],
    dest_pivots: &mut [u8],
    dest_edges: &mut [u8],
) -> Result<usize, Refusal>
    requires { (New pivots.now edges.now k.now c) × (all short_edge (inserted_edges pivots.now edges.now k.now) ≡ true) × (made.now ≡ edges_cut pivots.now edges.now k.now) }
    ensures answered { result ≡ answer (write_causes (inserted_pivots pivots.now k.now) (inserted_edges pivots.now edges.now k.now) dest_pivots.old dest_edges.old) (length (inserted_pivots pivots.now k.now)) }
    ensures pivots { dest_pivots.new ≡ leaves (write_causes (inserted_pivots pivots.now k.now) (inserted_edges pivots.now edges.now k.now) dest_pivots.old dest_edges.old) (encode_all (inserted_pivots pivots.now k.now)) dest_pivots.old }
    ensures edges { dest_edges.new ≡ leaves (write_causes (inserted_pivots pivots.now k.now) (inserted_edges pivots.now edges.now k.now) dest_pivots.old dest_edges.old) (encode_edges (inserted_edges pivots.now edges.now k.now)) dest_edges.old }
{
    let pivot = records::record_of(k.len() as u16, k);
    let at = c * RECORD_SIZE;
    let next = at + RECORD_SIZE;
    table_writes::write_table(
        &pivots[..next],
        &pivot,
        &pivots[next..],
        &edges[..at],
        made,
        &edges[next..],
        dest_pivots,
        dest_edges,
    )
}

// The edges of the two halves of slot c, as records at the head of made. Answers 1. Refuses 8.
#[tactic(auto, using(crate::proofs::Rules::half_edges))]
fn half_edges(
    pivots: &[u8],
    edges: &[u8],
    k: &[u8],
    c: usize,
    made: &mut [u8],
) -> Result<usize, Refusal>
    requires { (New pivots.now edges.now k.now c) × (length made.old ≡ 2 * record_size) }
    ensures answered { result ≡ answer (long_edges (inserted_edges pivots.now edges.now k.now)) 1 }
    ensures written { all short_edge (inserted_edges pivots.now edges.now k.now) ≡ true → made.new ≡ edges_cut pivots.now edges.now k.now }
{
    slot_edges::slot_edge(pivots, edges, k, c, true, made)?;
    slot_edges::slot_edge(pivots, edges, k, c, false, &mut made[RECORD_SIZE..])
}

// Causes 8 and 10 of an insertion into slot c; else the pivots and edges at the heads of the destinations.
#[tactic(auto, using(crate::proofs::Rules::insert_at))]
fn insert_at(
    pivots: &[u8],
    edges: &[u8],
    k: &[u8],
    c: usize,
    dest_pivots: &mut [u8],
    dest_edges: &mut [u8],
) -> Result<usize, Refusal>
    requires { New pivots.now edges.now k.now c }
    ensures answered { result ≡ answer (write_causes (inserted_pivots pivots.now k.now) (inserted_edges pivots.now edges.now k.now) dest_pivots.old dest_edges.old) (length (inserted_pivots pivots.now k.now)) }
    ensures pivots { dest_pivots.new ≡ leaves (write_causes (inserted_pivots pivots.now k.now) (inserted_edges pivots.now edges.now k.now) dest_pivots.old dest_edges.old) (encode_all (inserted_pivots pivots.now k.now)) dest_pivots.old }
    ensures edges { dest_edges.new ≡ leaves (write_causes (inserted_pivots pivots.now k.now) (inserted_edges pivots.now edges.now k.now) dest_pivots.old dest_edges.old) (encode_edges (inserted_edges pivots.now edges.now k.now)) dest_edges.old }
{
    let mut made = [0u8; 2 * RECORD_SIZE];
    half_edges(pivots, edges, k, c, &mut made)?;
    write_in(pivots, edges, k, c, &made, dest_pivots, dest_edges)
}

// InsertPivot with its edges: the pivots and the key in order, and the edges with those of the two halves of the key's
// slot, at the heads of the two destinations. Answers the number of pivots. Refuses 1, 2, 3, 4, 5, 11, 12, 8 and 10.
#[tactic(auto, using(crate::proofs::Rules::insert_pivot))]
pub fn insert_pivot(
    pivots: &[u8],
    edges: &[u8],
    key: &[u8],
    dest_pivots: &mut [u8],
    dest_edges: &mut [u8],
) -> Result<usize, Refusal>
    ensures answered { result ≡ insert_answer pivots.now edges.now key.now dest_pivots.old dest_edges.old }
    ensures pivots { dest_pivots.new ≡ insert_leaves_pivots pivots.now edges.now key.now dest_pivots.old dest_edges.old }
    ensures edges { dest_edges.new ≡ insert_leaves_edges pivots.now edges.now key.now dest_pivots.old dest_edges.old }
{
    let c = routing::new_pivot_slot(pivots, edges, key)?;
    insert_at(pivots, edges, key, c, dest_pivots, dest_edges)
}
