// The pair of a key's slot.
ghost use Rattle.std.specs.Prelude.{◌≡◌, true, ◌≤◌, ◌<◌, length};
ghost use Rattle.model.specs.keys.Key.{max_len};
ghost use Rattle.model.specs.records.Record.{key_bytes, edge_of};
ghost use Rattle.model.specs.inner.Places.{record_at};
ghost use Rattle.model.specs.tables.Tables.{max_pivots, short_edge};
ghost use Rattle.model.specs.translation.PairState.{state_of};
ghost use Rattle.model.specs.calls.TranslationCalls.{translate_answer, translate_pair};
ghost use Rattle.pairs.specs.State.{state, told_there, state_beside};
ghost use Rattle.translation.specs.Translated.{slot_pair};

use model::{EdgeKind, Refusal};
use pairs::PrefixSet;

// The pair of slot c: the prefix of the slot's range, and the slot's edge. Without an edge it is absent.
#[tactic(auto, using(crate::proofs::Rules::slot_pair))]
fn slot_pair(pivots: &[u8], edges: &[u8], c: usize) -> PrefixSet
    requires { (c < max_pivots) × (length (key_bytes (record_at pivots.now c)) ≤ max_len) × (short_edge (edge_of (record_at edges.now c)) ≡ true) }
    ensures { state result ≡ state_of (slot_pair pivots.now edges.now c) }
{
    let edge = records::record_at(edges, c);
    match records::edge_kind(edge) {
        EdgeKind::Prefix(_) => {
            let from = records::key_bytes(records::record_at(pivots, c));
            let n = range_prefix::range_prefix_len(from, records::record_at(pivots, c + 1));
            PrefixSet::of(&from[..n], records::key_bytes(edge))
        }
        EdgeKind::Absent => PrefixSet::absent(),
    }
}

// Translate: the pair of the key's slot, absent where the slot has no edge. Refuses 1, 2, 3, 4 and 5.
#[tactic(auto, using(crate::proofs::Rules::translate))]
pub fn translate(pivots: &[u8], edges: &[u8], key: &[u8]) -> Result<PrefixSet, Refusal>
    ensures answered { told_there result ≡ translate_answer pivots.now edges.now key.now }
    ensures paired { state_beside result ≡ translate_pair pivots.now edges.now key.now }
{
    let c = routing::slot_with_edges(pivots, edges, key, false)?;
    Ok(slot_pair(pivots, edges, c))
}
