// The upper bound of a prefix. No public function has a `requires`.
#![tactic(auto)]

ghost use Rattle.std.specs.Prelude.{◌≡◌, ◌≤◌, ◌<◌, pos, length, get_or};
ghost use Rattle.std.proofs.Math.IntN.{pred_ℤ};
ghost use Rattle.model.specs.keys.Key.{max_len};
ghost use Rattle.model.specs.records.Record.{encode};
ghost use Rattle.model.specs.ranges.UpperBound.{raised_at, ShortestUncommonPrefix};
ghost use Rattle.model.specs.inner.Written.{into};
ghost use Rattle.model.specs.calls.KeyCalls.{uncommon_prefix_answer, uncommon_prefix_leaves};
ghost use Rattle.upper_bound.specs.Walk.{up_to_other};

use model::{MAX_LEN, MAX_MARK, RECORD_SIZE, Refusal};

// The place of the last byte that isn't FF, or -1: document 01 asks for a signed index that walks down to it.
#[tactic(auto, using(crate::proofs::Rules::last_other))]
fn last_other(p: &[u8]) -> i64
    requires { length p.now ≤ max_len }
    ensures { result ≡ pred_ℤ (pos (up_to_other p.now (length p.now))) }
{
    let mut i = p.len() as i64 - 1;
    while i >= 0 {
        if p[i as usize] != 255 {
            return i;
        }
        i -= 1;
    }
    i
}

// Writes the record of p up to the place j, the byte there raised by 1, to the head of dest.
#[tactic(auto, using(crate::proofs::Rules::put_raised))]
fn put_raised(p: &[u8], j: usize, dest: &mut [u8])
    requires { (length p.now ≤ max_len) × (j < length p.now) × (get_or p.now j 0 ≡ 255 → ⊥) }
    ensures { dest.new ≡ into (encode (raised_at p.now j)) dest.old }
{
    let n = j + 1;
    let mut made = records::record_of(n as u16, &p[..n]);
    made[2 + j] = p[j] + 1;
    records::store(made, dest);
}

// Writes the record of the upper bound of p to the head of dest.
#[tactic(auto, using(crate::proofs::Rules::put_upper))]
fn put_upper(p: &[u8], dest: &mut [u8])
    requires { length p.now ≤ max_len }
    ensures { dest.new ≡ into (encode (ShortestUncommonPrefix p.now)) dest.old }
{
    let i = last_other(p);
    if i < 0 {
        records::put_record(MAX_MARK, &p[..0], dest);
    } else {
        put_raised(p, i as usize, dest);
    }
}

// ShortestUncommonPrefix: the upper bound of a prefix, as one record at the head of dest. Answers 1.
// Refuses 2 and 10.
#[tactic(auto, using(crate::proofs::Rules::shortest_uncommon_prefix, model::proofs::calls::Refusals::answering))]
pub fn shortest_uncommon_prefix(prefix: &[u8], dest: &mut [u8]) -> Result<usize, Refusal>
    ensures answered { result ≡ uncommon_prefix_answer prefix.now dest.old }
    ensures written { dest.new ≡ uncommon_prefix_leaves prefix.now dest.old }
{
    if MAX_LEN < prefix.len() {
        return Err(Refusal::Malformed);
    }
    if dest.len() < RECORD_SIZE {
        return Err(Refusal::NoRoom);
    }
    put_upper(prefix, dest);
    Ok(1)
}
