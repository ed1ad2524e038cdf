// The edge of a slot that is cut, for cuts and insertion. No public function has a `requires`.
#![tactic(auto)]

ghost use Rattle.std.specs.Prelude.{◌≡◌};
ghost use Rattle.slot_edges.specs.Slot.{grown_answer, grown_leaves, slot_edge_answer, slot_edge_leaves};

use model::{EdgeKind, MAX_LEN, Refusal};

// The edge where its range's prefix grows from old to new, as a record at the head of made: a prefix followed by what
// new has beyond old, and a record that is none as it is. Answers 1. Refuses 2, 7 and 8.
#[tactic(auto, using(crate::proofs::Rules::cut_edge))]
fn cut_edge(edge: &[u8], old: &[u8], new: &[u8], made: &mut [u8]) -> Result<usize, Refusal>
    ensures answered { result ≡ grown_answer old.now new.now edge.now }
    ensures written { made.new ≡ grown_leaves old.now new.now edge.now made.old }
{
    match records::edge_kind(edge) {
        EdgeKind::Prefix(_) => {
            let mut room = [0u8; MAX_LEN];
            // Document 01 asks for let .. else in the cuts, leaving with the inner refusal.
            let changed = keys::change_prefix_small(new, old, records::key_bytes(edge), &mut room);
            let Ok(n) = changed else {
                return changed;
            };
            records::put_record(n as u16, &room[..n], made);
            Ok(1)
        }
        EdgeKind::Absent => {
            records::copy_by_blocks(edge, made);
            Ok(1)
        }
    }
}

// The edge of slot c, cut to what a cut at the key leaves of the slot, as a record at the head of made. Answers 1.
// Refuses 2, 7 and 8, but only 8 where none of the cut's causes 1 to 5 applies and c is its slot.
#[tactic(auto, using(crate::proofs::Rules::slot_edge))]
pub fn slot_edge(
    pivots: &[u8],
    edges: &[u8],
    k: &[u8],
    c: usize,
    left: bool,
    made: &mut [u8],
) -> Result<usize, Refusal>
    ensures answered { result ≡ slot_edge_answer left pivots.now edges.now k.now c }
    ensures written { made.new ≡ slot_edge_leaves left pivots.now edges.now k.now c made.old }
{
    let from = records::key_bytes(records::record_at(pivots, c));
    let upto = records::record_after(pivots, c);
    let edge = records::record_at(edges, c);
    let n = range_prefix::range_prefix_len(from, upto);
    if left {
        let m = range_prefix::key_range_prefix(from, k);
        return cut_edge(edge, &from[..n], &from[..m], made);
    }
    let m = range_prefix::range_prefix_len(k, upto);
    cut_edge(edge, &from[..n], &k[..m], made)
}
