// A range of keys under another prefix. No public function has a `requires`.
#![tactic(auto)]

mod bounds;

ghost use Rattle.std.specs.Prelude.{◌≡◌, ◌||◌};
ghost use Rattle.model.specs.keys.Key.{too_long};
ghost use Rattle.model.specs.records.Record.{encode_all};
ghost use Rattle.model.specs.calls.Refusals.{answer, leaves};
ghost use Rattle.model.specs.calls.KeyCalls.{not_element};
ghost use Rattle.model.specs.calls.RenamingCalls.{new_bounds, both_bounds, pivot_pair_answer, pivot_pair_leaves};
ghost use Rattle.pivot_pair.specs.Range.{Prefixed, range_causes};

use bounds::{has_prefix, put_bounds, too_long};
use model::{MAX_LEN, RECORD_SIZE, Refusal};

// Cause 2 of the arguments.
fn misread(left: &[u8], right: &[u8], prefix: &[u8], new_prefix: &[u8]) -> bool
    ensures { result ≡ (too_long left.now || not_element right.now || too_long prefix.now || too_long new_prefix.now) }
{
    MAX_LEN < left.len()
        || !records::holds_element(right)
        || MAX_LEN < prefix.len()
        || MAX_LEN < new_prefix.len()
}

// Causes 8, 9 and 10 of a range that begins with the prefix; else its bounds under the new prefix at the head of dest.
#[tactic(auto, using(crate::proofs::Rules::translate_range))]
fn translate_range(
    left: &[u8],
    right: &[u8],
    prefix: &[u8],
    new_prefix: &[u8],
    dest: &mut [u8],
) -> Result<usize, Refusal>
    requires { Prefixed left.now right.now prefix.now new_prefix.now }
    ensures answered { result ≡ answer (range_causes left.now right.now prefix.now new_prefix.now dest.old) 2 }
    ensures written { dest.new ≡ leaves (range_causes left.now right.now prefix.now new_prefix.now dest.old) (encode_all (both_bounds (new_bounds left.now right.now prefix.now new_prefix.now))) dest.old }
{
    let goes_on = has_prefix(right, prefix);
    let long = too_long(left, right, prefix, new_prefix, goes_on);
    let above = keys::passes(right, left, false);
    if long {
        return Err(Refusal::TooLong);
    }
    if above {
        return Err(Refusal::NotBelow);
    }
    if dest.len() < 2 * RECORD_SIZE {
        return Err(Refusal::NoRoom);
    }
    put_bounds(left, right, prefix, new_prefix, goes_on, dest);
    Ok(2)
}

// TranslatePivotPair: the range from the key left up to the element right with prefix changed to new_prefix, as two
// records at the head of dest. Answers 2. Refuses 1, 2, 7, 8, 9 and 10.
#[tactic(auto, using(crate::proofs::Rules::translate_pivot_pair))]
pub fn translate_pivot_pair(
    left: &[u8],
    right: &[u8],
    prefix: &[u8],
    new_prefix: &[u8],
    dest: &mut [u8],
) -> Result<usize, Refusal>
    ensures answered { result ≡ pivot_pair_answer left.now right.now prefix.now new_prefix.now dest.old }
    ensures written { dest.new ≡ pivot_pair_leaves left.now right.now prefix.now new_prefix.now dest.old }
{
    if right.len() != RECORD_SIZE {
        return Err(Refusal::Shape);
    }
    if misread(left, right, prefix, new_prefix) {
        return Err(Refusal::Malformed);
    }
    if !scan::is_prefix(prefix, left) {
        return Err(Refusal::NotPrefix);
    }
    translate_range(left, right, prefix, new_prefix, dest)
}
