// A key with its prefix changed. No public function has a `requires`.
#![tactic(auto)]

ghost use Rattle.std.specs.Prelude.{◌≡◌, ◌&&◌, leb, length};
ghost use Rattle.model.specs.keys.Key.{max_len, IsPrefix, change_prefix};
ghost use Rattle.model.specs.calls.Refusals.{answer};
ghost use Rattle.model.specs.calls.KeyCalls.{change_prefix_answer, change_prefix_leaves};
ghost use Rattle.prefix_changes.specs.Changed.{changed_causes};

use model::{MAX_LEN, Refusal};

// The causes of a change of prefix, by whether the key, where it isn't too long, begins with the old one, and by the room
// for the changed key; else its length. Apart from the writing, since the compiler takes what follows so many tests in one
// function for rare, and calls it instead of putting it in place.
#[tactic(auto, using(crate::proofs::Rules::changed))]
fn changed(key: &[u8], old: &[u8], new: &[u8], begins: bool, room: usize) -> Result<usize, Refusal>
    requires { begins ≡ (leb (length key.now) max_len && IsPrefix old.now key.now) }
    ensures { result ≡ answer (changed_causes key.now old.now new.now room) (length (change_prefix old.now new.now key.now)) }
{
    if MAX_LEN < key.len() || MAX_LEN < old.len() || MAX_LEN < new.len() {
        return Err(Refusal::Malformed);
    }
    if !begins {
        return Err(Refusal::NotPrefix);
    }
    let n = new.len() + (key.len() - old.len());
    if MAX_LEN < n {
        return Err(Refusal::TooLong);
    }
    if room < n {
        return Err(Refusal::NoRoom);
    }
    Ok(n)
}

// change_prefix: the key with the old prefix changed to the new one, at the head of dest. Answers its length.
// Refuses 2, 7, 8 and 10.
#[tactic(auto, using(crate::proofs::Rules::change_prefix))]
pub fn change_prefix(key: &[u8], old: &[u8], new: &[u8], dest: &mut [u8]) -> Result<usize, Refusal>
    ensures answered { result ≡ change_prefix_answer key.now old.now new.now dest.old }
    ensures written { dest.new ≡ change_prefix_leaves key.now old.now new.now dest.old }
{
    // a key that is refused for its length isn't looked at, so that 2 costs the same at any length
    let begins = key.len() <= MAX_LEN && scan::is_prefix_by_words(old, key);
    let n = changed(key, old, new, begins, dest.len())?;
    records::join_by_blocks(new, &key[old.len()..], dest);
    Ok(n)
}

// A smaller change of prefix, by single bytes in the end: for calls that change a prefix among other things, where the
// compiler puts it in place. One body for both, lent a test and a copy, would be longer by the clauses that say what these do.
#[tactic(auto, using(crate::proofs::Rules::change_prefix))]
pub fn change_prefix_small(
    key: &[u8],
    old: &[u8],
    new: &[u8],
    dest: &mut [u8],
) -> Result<usize, Refusal>
    ensures answered { result ≡ change_prefix_answer key.now old.now new.now dest.old }
    ensures written { dest.new ≡ change_prefix_leaves key.now old.now new.now dest.old }
{
    let begins = key.len() <= MAX_LEN && scan::is_prefix(old, key);
    let n = changed(key, old, new, begins, dest.len())?;
    records::join(new, &key[old.len()..], dest);
    Ok(n)
}
