// Pairs as records of 133 bytes: a flag, two length fields, two arrays of 64 bytes; read and written. No public function has
// a `requires`.
#![tactic(auto)]

ghost use Rattle.std.specs.Prelude.{◌≡◌, ◌∷◌, [], ◌/◌, ◌%◌, ◌≤◌, length};
ghost use Rattle.model.specs.keys.Key.{max_len};
ghost use Rattle.model.specs.translation.PairRecord.{pair_size, flag, encode_state};
ghost use Rattle.model.specs.calls.Refusals.{over};
ghost use Rattle.pairs.specs.State.{state, told_there, state_beside};
ghost use Rattle.pair_bytes.specs.Placed.{state_read, state_put, placed_answer, placed_leaves};

use model::{MAX_LEN, PAIR_SIZE, Refusal};
use pairs::PrefixSet;

// Where the two length fields stand, after the flag, and the two arrays.
pub const OLD_LEN: usize = 1;

pub const NEW_LEN: usize = 3;

pub const OLD: usize = 5;

pub const NEW: usize = OLD + MAX_LEN;

// The pair that a record holds, whatever its flag; of a slice that isn't a record the absent one.
#[tactic(auto, using(crate::proofs::Rules::read_pair))]
pub fn read_pair(rec: &[u8]) -> PrefixSet
    ensures { state result ≡ state_read rec.now }
{
    if rec.len() != PAIR_SIZE {
        return PrefixSet::absent();
    }
    let there = rec[0] == 1;
    let oldlen = usize::from(records::length_field(&rec[OLD_LEN..]));
    let newlen = usize::from(records::length_field(&rec[NEW_LEN..]));
    let old = pairs::padded(&rec[OLD..NEW]);
    let new = pairs::padded(&rec[NEW..]);
    PrefixSet {
        there,
        oldlen,
        newlen,
        old,
        new,
    }
}

// The flag and the two length fields.
fn header(there: bool, oldlen: usize, newlen: usize) -> [u8; OLD]
    requires { (oldlen ≤ max_len) × (newlen ≤ max_len) }
    ensures { result ≡ flag there ∷ oldlen / 256 ∷ oldlen % 256 ∷ newlen / 256 ∷ newlen % 256 ∷ [] }
{
    [
        u8::from(there),
        (oldlen / 256) as u8,
        (oldlen % 256) as u8,
        (newlen / 256) as u8,
        (newlen % 256) as u8,
    ]
}

// Writes a pair's record to the head of dest, which has room for it.
#[tactic(auto, using(crate::proofs::Rules::write_pair))]
fn write_pair(pair: PrefixSet, dest: &mut [u8])
    requires { (pair.oldlen ≤ max_len) × (pair.newlen ≤ max_len) × (pair_size ≤ length dest.old) }
    ensures { dest.new ≡ over (encode_state (state pair)) dest.old }
{
    let head = header(pair.there, pair.oldlen, pair.newlen);
    records::join(&head, &pair.old, dest);
    records::copy(&pair.new, &mut dest[NEW..]);
}

// Writes a pair's record to the head of dest. Nothing is written where there is no room for it, or where a length passes
// 64, which no result's does.
#[tactic(auto, using(crate::proofs::Placing::putting))]
pub fn put_pair(pair: PrefixSet, dest: &mut [u8])
    ensures { dest.new ≡ state_put (state pair) dest.old }
{
    if dest.len() < PAIR_SIZE {
        return;
    }
    if MAX_LEN < pair.oldlen {
        return;
    }
    if MAX_LEN < pair.newlen {
        return;
    }
    write_pair(pair, dest);
}

// Places a pair beside an answer: a refusal is handed on; else 10 where there is no room for a record, and else the pair
// is written to the head of dest, as `put_pair` does.
#[tactic(auto, using(crate::proofs::Rules::place_beside))]
pub fn place_beside(
    answer: Result<usize, Refusal>,
    pair: PrefixSet,
    dest: &mut [u8],
) -> Result<usize, Refusal>
    ensures answered { result ≡ placed_answer answer dest.old }
    ensures written { dest.new ≡ placed_leaves answer (state pair) dest.old }
{
    let told = answer?;
    if dest.len() < PAIR_SIZE {
        return Err(Refusal::NoRoom);
    }
    put_pair(pair, dest);
    Ok(told)
}

// Places the pair of a call's result beside what is told of it: 1 where it is there, 0 where it is absent.
#[tactic(auto, using(crate::proofs::Rules::place_pair))]
pub fn place_pair(made: Result<PrefixSet, Refusal>, dest: &mut [u8]) -> Result<usize, Refusal>
    ensures answered { result ≡ placed_answer (told_there made) dest.old }
    ensures written { dest.new ≡ placed_leaves (told_there made) (state_beside made) dest.old }
{
    let pair = made?;
    place_beside(Ok(usize::from(pair.there)), pair, dest)
}
