// TranslateEdges: the edges with each absent one filled. No public function has a `requires`.
#![tactic(auto)]

ghost use Rattle.std.specs.Prelude.{◌≡◌, false, ◌/◌, ◌≤◌, ◌<◌, length};
ghost use Rattle.std.proofs.Math.Option.{none};
ghost use Rattle.model.specs.keys.Key.{max_len};
ghost use Rattle.model.specs.records.Record.{record_size, record_of, encode_edge, encode_edges};
ghost use Rattle.model.specs.tables.Tables.{edge_at};
ghost use Rattle.model.specs.calls.Refusals.{first, over};
ghost use Rattle.model.specs.calls.TableCalls.{table_causes};
ghost use Rattle.model.specs.calls.RenamingCalls.{new_edges, edges_answer, edges_leaves};

use model::{EdgeKind, RECORD_SIZE, Refusal};

// Writes the record of a key to the head of dest, which has room for it, by leaves that the compiler puts in place.
#[tactic(auto, using(crate::proofs::Rules::put_key))]
fn put_key(k: &[u8], dest: &mut [u8])
    requires { (length k.now ≤ max_len) × (record_size ≤ length dest.old) }
    ensures { dest.new ≡ over (record_of (length k.now) k.now) dest.old }
{
    records::put_head(k.len() as u8, dest);
    records::copy_by_blocks(k, &mut dest[2..]);
}

// The record of the edge of slot i or, where there is none, of the prefix of the slot's range, at the head of dest.
#[tactic(auto, using(crate::proofs::Rules::put_filled))]
fn put_filled(pivots: &[u8], edges: &[u8], i: usize, dest: &mut [u8])
    requires { (first (table_causes false false pivots.now edges.now) ≡ none) × (i < length edges.now / record_size) × (record_size ≤ length dest.old) }
    ensures { dest.new ≡ over (encode_edge (edge_at (new_edges pivots.now edges.now) i)) dest.old }
{
    let old = records::record_at(edges, i);
    match records::edge_kind(old) {
        EdgeKind::Prefix(_) => put_key(records::key_bytes(old), dest),
        EdgeKind::Absent => {
            let from = records::key_bytes(records::record_at(pivots, i));
            let n = range_prefix::range_prefix_len(from, records::record_at(pivots, i + 1));
            put_key(&from[..n], dest)
        }
    }
}

// The records of the filled edges, slot by slot.
#[tactic(auto, using(crate::proofs::Rules::write_edges))]
fn write_edges(pivots: &[u8], edges: &[u8], dest: &mut [u8])
    requires { (first (table_causes false false pivots.now edges.now) ≡ none) × (length edges.now ≤ length dest.old) }
    ensures { dest.new ≡ over (encode_edges (new_edges pivots.now edges.now)) dest.old }
{
    let slots = edges.len() / RECORD_SIZE;
    for i in 0..slots {
        let at = i * RECORD_SIZE;
        put_filled(pivots, edges, i, &mut dest[at..]);
    }
}

// TranslateEdges: the edges with each absent one filled with its range's prefix, at the head of dest. Answers the
// number of edges written. Refuses 1, 2, 3, 4 and 10.
#[tactic(auto, using(crate::proofs::Rules::translate_edges, crate::proofs::Filled::filling))]
pub fn translate_edges(pivots: &[u8], edges: &[u8], dest: &mut [u8]) -> Result<usize, Refusal>
    ensures answered { result ≡ edges_answer pivots.now edges.now dest.old }
    ensures written { dest.new ≡ edges_leaves pivots.now edges.now dest.old }
{
    table_checks::check_table(pivots, edges, false, false)?;
    if dest.len() < edges.len() {
        return Err(Refusal::NoRoom);
    }
    write_edges(pivots, edges, dest);
    Ok(edges.len() / RECORD_SIZE)
}
