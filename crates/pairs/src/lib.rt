// A prefix pair by value: reverse, apply and compose. No public function has a `requires`.
#![tactic(auto)]

mod compose;
mod pad;

ghost use Rattle.std.specs.Prelude.{◌≡◌};
ghost use Rattle.std.proofs.Math.Option.{none};
ghost use Rattle.model.specs.inner.Written.{clipped};
ghost use Rattle.model.specs.translation.PrefixSet.{pair};
ghost use Rattle.model.specs.translation.PairState.{not_pair, state_of};
ghost use Rattle.model.specs.calls.PairCalls.{reverse_answer, reverse_pair, apply_answer, apply_leaves, compose_answer, compose_pair};
ghost use Rattle.pairs.specs.State.{state, told_there, state_beside};

use compose::composed;
use model::{MAX_LEN, Refusal};
use pad::cleared;
pub use pad::padded;

// A pair that is there, or an absent one: a flag, two lengths, and the old and the new prefix at the heads of two arrays.
// A flag and no `Option`, since the paper's state by value has lengths and arrays where it is absent, too.
#[derive(Clone, Copy)]
pub struct PrefixSet {
    pub there: bool,
    pub oldlen: usize,
    pub newlen: usize,
    pub old: [u8; MAX_LEN],
    pub new: [u8; MAX_LEN],
}

impl PrefixSet {
    // The absent pair.
    #[tactic(auto, using(crate::proofs::Rules::absent))]
    pub fn absent() -> Self
        ensures { state result ≡ state_of none }
    {
        PrefixSet {
            there: false,
            oldlen: 0,
            newlen: 0,
            old: [0; MAX_LEN],
            new: [0; MAX_LEN],
        }
    }

    // The pair of an old and a new prefix, of each the first 64 bytes.
    #[tactic(auto, using(crate::proofs::Rules::of))]
    pub fn of(old: &[u8], new: &[u8]) -> Self
        ensures { state result ≡ state_of (pair (clipped old.now) (clipped new.now)) }
    {
        PrefixSet {
            there: true,
            oldlen: old.len().min(MAX_LEN),
            newlen: new.len().min(MAX_LEN),
            old: padded(old),
            new: padded(new),
        }
    }

    // Whether a length of a pair that is there passes 64.
    #[tactic(auto, using(crate::proofs::Rules::malformed))]
    fn malformed(self) -> bool
        ensures { result ≡ not_pair (state self) }
    {
        self.there && (MAX_LEN < self.oldlen || MAX_LEN < self.newlen)
    }

    // RevPrefixSet: the pair with its prefixes exchanged. An absent pair stays absent. Refuses 2.
    #[tactic(auto, using(crate::proofs::Rules::reverse))]
    pub fn reverse(self) -> Result<PrefixSet, Refusal>
        ensures answered { told_there result ≡ reverse_answer (state self) }
        ensures paired { state_beside result ≡ reverse_pair (state self) }
    {
        if self.malformed() {
            return Err(Refusal::Malformed);
        }
        if !self.there {
            return Ok(PrefixSet::absent());
        }
        Ok(PrefixSet {
            there: true,
            oldlen: self.newlen,
            newlen: self.oldlen,
            old: cleared(self.new, self.newlen),
            new: cleared(self.old, self.oldlen),
        })
    }

    // ApplyPrefixSet: the key with the old prefix changed to the new one, at the head of dest. An absent pair leaves
    // the key as it is. Answers the length. Refuses 2, 7, 8 and 10.
    #[tactic(auto, using(crate::proofs::Rules::apply))]
    pub fn apply(self, key: &[u8], dest: &mut [u8]) -> Result<usize, Refusal>
        ensures answered { result ≡ apply_answer (state self) key.now dest.old }
        ensures written { dest.new ≡ apply_leaves (state self) key.now dest.old }
    {
        if self.malformed() {
            return Err(Refusal::Malformed);
        }
        if !self.there {
            // ε changed to ε: the key itself
            return keys::change_prefix_small(key, &key[..0], &key[..0], dest);
        }
        keys::change_prefix_small(
            key,
            &self.old[..self.oldlen],
            &self.new[..self.newlen],
            dest,
        )
    }

    // ComposePrefixSet: the pair that undoes b and then does this one. Refuses 2, 7 and 8.
    #[tactic(auto, using(crate::proofs::Rules::compose, crate::proofs::Rules::ends))]
    pub fn compose(self, b: PrefixSet) -> Result<PrefixSet, Refusal>
        ensures answered { told_there result ≡ compose_answer (state self) (state b) }
        ensures paired { state_beside result ≡ compose_pair (state self) (state b) }
    {
        if self.malformed() || b.malformed() {
            return Err(Refusal::Malformed);
        }
        if !self.there {
            return b.reverse();
        }
        // copied here, and each part taken of the copy: of parts of `self` and `b` the compiler copies both pairs before the
        // tests above, and a call that ends at one takes up to 1.9 times the time
        let ap = self.old;
        let aq = self.new;
        let old = &ap[..self.oldlen];
        let new = &aq[..self.newlen];
        if !b.there {
            return Ok(PrefixSet::of(old, new));
        }
        let bp = b.old;
        let bq = b.new;
        composed(old, new, &bp[..b.oldlen], &bq[..b.newlen])
    }
}
