// The translation of a key by a table with its edges.
ghost use Rattle.std.specs.Prelude.{◌≡◌, false, length};
ghost use Rattle.std.proofs.Math.Option.{none};
ghost use Rattle.model.specs.records.Record.{elements};
ghost use Rattle.model.specs.tables.Tables.{BoundedKey};
ghost use Rattle.model.specs.cuts.Sides.{cutoff};
ghost use Rattle.model.specs.calls.Refusals.{first, answer, leaves};
ghost use Rattle.model.specs.calls.KeyCalls.{size_causes};
ghost use Rattle.model.specs.calls.TranslationCalls.{translate_key_answer, translate_key_leaves};
ghost use Rattle.model.specs.calls.TableCalls.{edge_slot_causes};
ghost use Rattle.translation.specs.Translated.{translated};

use model::{EdgeKind, Refusal};

// The key of slot c changed: its prefix, the prefix of the slot's range, becomes the slot's edge. Without an edge it is the key itself.
#[tactic(auto, using(crate::proofs::Rules::translate_in))]
fn translate_in(
    pivots: &[u8],
    edges: &[u8],
    k: &[u8],
    c: usize,
    dest: &mut [u8],
) -> Result<usize, Refusal>
    requires { (first (edge_slot_causes pivots.now edges.now k.now (BoundedKey (elements pivots.now) k.now)) ≡ none) × (c ≡ cutoff false (elements pivots.now) k.now) }
    ensures answered { result ≡ answer (size_causes (translated pivots.now edges.now k.now) dest.old) (length (translated pivots.now edges.now k.now)) }
    ensures written { dest.new ≡ leaves (size_causes (translated pivots.now edges.now k.now) dest.old) (translated pivots.now edges.now k.now) dest.old }
{
    let edge = records::record_at(edges, c);
    match records::edge_kind(edge) {
        EdgeKind::Prefix(_) => {
            let from = records::key_bytes(records::record_at(pivots, c));
            let n = range_prefix::range_prefix_len(from, records::record_at(pivots, c + 1));
            keys::change_prefix_small(k, &from[..n], records::key_bytes(edge), dest)
        }
        // ε changed to ε: the key itself
        EdgeKind::Absent => keys::change_prefix_small(k, &k[..0], &k[..0], dest),
    }
}

// TranslateKey: the key translated, at the head of dest. Answers its length. Refuses 1, 2, 3, 4, 5, 8 and 10.
#[tactic(auto, using(crate::proofs::Rules::translate_key))]
pub fn translate_key(
    pivots: &[u8],
    edges: &[u8],
    key: &[u8],
    dest: &mut [u8],
) -> Result<usize, Refusal>
    ensures answered { result ≡ translate_key_answer pivots.now edges.now key.now dest.old }
    ensures written { dest.new ≡ translate_key_leaves pivots.now edges.now key.now dest.old }
{
    let c = routing::slot_with_edges(pivots, edges, key, false)?;
    translate_in(pivots, edges, key, c, dest)
}
