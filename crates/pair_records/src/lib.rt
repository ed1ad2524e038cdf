// The calls on pairs as records of 133 bytes; and by name how one is read and written. No public function has a `requires`.
#![tactic(auto)]

ghost use Rattle.std.specs.Prelude.{◌≡◌};
ghost use Rattle.model.specs.calls.PairRecordCalls.{reverse_pair_answer, reverse_pair_leaves, apply_pair_answer, apply_pair_leaves, compose_pairs_answer, compose_pairs_leaves};

use model::{MAX_LEN, PAIR_SIZE, Refusal};
use pair_bytes::{NEW, NEW_LEN, OLD, OLD_LEN};
pub use pair_bytes::{place_beside, place_pair, put_pair, read_pair};

// RevPrefixSet: the pair with its prefixes exchanged, at the head of dest. Answers 1 where it is there, 0 where it is
// absent. Refuses 1, 2 and 10.
#[tactic(auto, using(crate::proofs::Rules::reverse_pair))]
pub fn reverse_pair(pair: &[u8], dest: &mut [u8]) -> Result<usize, Refusal>
    ensures answered { result ≡ reverse_pair_answer pair.now dest.old }
    ensures written { dest.new ≡ reverse_pair_leaves pair.now dest.old }
{
    if pair.len() != PAIR_SIZE {
        return Err(Refusal::Shape);
    }
    if 1 < pair[0] {
        return Err(Refusal::Malformed);
    }
    place_pair(read_pair(pair).reverse(), dest)
}

// ApplyPrefixSet: the key with the pair's old prefix changed to its new one, at the head of dest. Answers its length.
// Refuses 1, 2, 7, 8 and 10. It goes by the record's own bytes: read into a `PrefixSet` first, to be applied by its method,
// it took 1.14 to 1.45 of the reference's time with 32 and 64 bytes, and so takes 0.85 to 1.05 (docs/PERFORMANCE.md).
#[tactic(auto, using(crate::proofs::Rules::apply_pair))]
pub fn apply_pair(pair: &[u8], key: &[u8], dest: &mut [u8]) -> Result<usize, Refusal>
    ensures answered { result ≡ apply_pair_answer pair.now key.now dest.old }
    ensures written { dest.new ≡ apply_pair_leaves pair.now key.now dest.old }
{
    if pair.len() != PAIR_SIZE {
        return Err(Refusal::Shape);
    }
    if 1 < pair[0] {
        return Err(Refusal::Malformed);
    }
    if pair[0] == 0 {
        // an absent pair, ε changed to ε: the key itself
        return keys::change_prefix(key, &key[..0], &key[..0], dest);
    }
    // `as`, and two tests: with `usize::from` or one test it takes 18.0 to 22.6 ns with 64 bytes, this way 17.1 to 19.9
    let n = records::length_field(&pair[OLD_LEN..]) as usize;
    let m = records::length_field(&pair[NEW_LEN..]) as usize;
    if MAX_LEN < n {
        return Err(Refusal::Malformed);
    }
    if MAX_LEN < m {
        return Err(Refusal::Malformed);
    }
    keys::change_prefix(key, &pair[OLD..OLD + n], &pair[NEW..NEW + m], dest)
}

// ComposePrefixSet: the pair that undoes b and then does a, at the head of dest. Answers 1 where it is there, 0 where it
// is absent. Refuses 1, 2, 7, 8 and 10.
#[tactic(auto, using(crate::proofs::Rules::compose_pairs, pair_bytes::proofs::Reading::wrong_flag, model::proofs::calls::Refusals::answering))]
pub fn compose_pairs(a: &[u8], b: &[u8], dest: &mut [u8]) -> Result<usize, Refusal>
    ensures answered { result ≡ compose_pairs_answer a.now b.now dest.old }
    ensures written { dest.new ≡ compose_pairs_leaves a.now b.now dest.old }
{
    if a.len() != PAIR_SIZE || b.len() != PAIR_SIZE {
        return Err(Refusal::Shape);
    }
    if 1 < a[0] || 1 < b[0] {
        return Err(Refusal::Malformed);
    }
    place_pair(read_pair(a).compose(read_pair(b)), dest)
}
