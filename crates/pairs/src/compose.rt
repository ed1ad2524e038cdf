// Composing two pairs that are there.
ghost use Rattle.std.specs.Prelude.{◌≡◌, ◌≤◌, length};
ghost use Rattle.model.specs.keys.Key.{max_len};
ghost use Rattle.model.specs.translation.PrefixSet.{pair, ComposePrefixSet};
ghost use Rattle.model.specs.calls.PairCalls.{pair_answer, pair_beside, composition};
ghost use Rattle.pairs.specs.State.{told_there, state_beside};

use crate::PrefixSet;
use crate::pad::padded;
use model::{MAX_LEN, Refusal};

// The pair that undoes bp to bq and then does ap to aq: the longer old prefix, changed by the pair with the shorter one,
// beside the longer one's own new prefix. Refuses 7 and 8.
#[tactic(auto, using(crate::proofs::Rules::composed))]
pub(crate) fn composed(ap: &[u8], aq: &[u8], bp: &[u8], bq: &[u8]) -> Result<PrefixSet, Refusal>
    requires { (length ap.now ≤ max_len) × (length aq.now ≤ max_len) × (length bp.now ≤ max_len) × (length bq.now ≤ max_len) }
    ensures answered { told_there result ≡ pair_answer (composition (pair ap.now aq.now) (pair bp.now bq.now)) (ComposePrefixSet (pair ap.now aq.now) (pair bp.now bq.now)) }
    ensures paired { state_beside result ≡ pair_beside (composition (pair ap.now aq.now) (pair bp.now bq.now)) (ComposePrefixSet (pair ap.now aq.now) (pair bp.now bq.now)) }
{
    // the changed prefix is written over zeros, so its array is as a pair's is
    let mut room = [0u8; MAX_LEN];
    if ap.len() <= bp.len() {
        let n = keys::change_prefix_small(bp, ap, aq, &mut room)?;
        return Ok(PrefixSet {
            there: true,
            oldlen: bq.len(),
            newlen: n,
            old: padded(bq),
            new: room,
        });
    }
    let n = keys::change_prefix_small(ap, bp, bq, &mut room)?;
    Ok(PrefixSet {
        there: true,
        oldlen: n,
        newlen: aq.len(),
        old: room,
        new: padded(aq),
    })
}
