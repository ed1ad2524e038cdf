// The pair of a key's slot as a record. No public function has a `requires`.
#![tactic(auto)]

ghost use Rattle.std.specs.Prelude.{◌≡◌};
ghost use Rattle.model.specs.calls.PairRecordCalls.{translate_pair_answer, translate_pair_leaves};

use model::Refusal;

// Translate: the pair of the key's slot, at the head of dest. Answers 1 where it is there, 0 where it is absent.
// Refuses 1, 2, 3, 4, 5 and 10.
#[tactic(auto, using(crate::proofs::Rules::translate_pair))]
pub fn translate_pair(
    pivots: &[u8],
    edges: &[u8],
    key: &[u8],
    dest: &mut [u8],
) -> Result<usize, Refusal>
    ensures answered { result ≡ translate_pair_answer pivots.now edges.now key.now dest.old }
    ensures written { dest.new ≡ translate_pair_leaves pivots.now edges.now key.now dest.old }
{
    pair_bytes::place_pair(translation::translate(pivots, edges, key), dest)
}
