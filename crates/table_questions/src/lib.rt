// Questions about a table. No public function has a `requires`.
#![tactic(auto)]

ghost use Rattle.std.specs.Prelude.{◌≡◌, true, not, ◌||◌, ◌∷◌, [], ◌-◌, ◌/◌, ◌<◌, length, Ok};
ghost use Rattle.model.specs.declared.Refusal.TheVariants.{NotBelow};
ghost use Rattle.model.specs.keys.Key.{too_long};
ghost use Rattle.model.specs.keys.Order.{key, lt};
ghost use Rattle.model.specs.records.Record.{record_size, element, elements};
ghost use Rattle.model.specs.inner.Places.{record_at};
ghost use Rattle.model.specs.tables.Tables.{WFPivots, ContainsAllKeys, ContainsRange};
ghost use Rattle.model.specs.calls.Refusals.{◌⇒◌, answer};
ghost use Rattle.model.specs.calls.KeyCalls.{not_element};
ghost use Rattle.model.specs.calls.TableCalls.{wf_pivots_answer, wf_edges_answer, contains_all_keys_answer, contains_range_answer};

use model::{MAX_LEN, RECORD_SIZE, Refusal};

// The record of the last pivot.
pub fn last_record(pivots: &[u8]) -> &[u8]
    ensures { result.now ≡ record_at pivots.now (length pivots.now / record_size - 1) }
{
    let count = pivots.len() / RECORD_SIZE;
    if count == 0 {
        return records::record_at(pivots, 0);
    }
    records::record_at(pivots, count - 1)
}

// WFPivots: yes, or the refusal 1, 2 or 3.
#[tactic(auto, using(crate::proofs::Rules::wf_pivots))]
pub fn wf_pivots(pivots: &[u8]) -> Result<bool, Refusal>
    ensures { result ≡ wf_pivots_answer pivots.now }
{
    table_checks::check_pivots(pivots, false, false)?;
    Ok(true)
}

// WFEdges: yes, or the refusal 1, 2, 3 or 4.
#[tactic(auto, using(crate::proofs::Rules::wf_edges))]
pub fn wf_edges(pivots: &[u8], edges: &[u8]) -> Result<bool, Refusal>
    ensures { result ≡ wf_edges_answer pivots.now edges.now }
{
    table_checks::check_table(pivots, edges, false, false)?;
    Ok(true)
}

// Whether the first pivot is the empty key and the last one max.
#[tactic(auto, using(crate::proofs::Rules::whole))]
fn whole(pivots: &[u8]) -> bool
    requires { WFPivots (elements pivots.now) ≡ true }
    ensures { result ≡ ContainsAllKeys (elements pivots.now) }
{
    if keys::passes(records::record_at(pivots, 0), &pivots[..0], false) {
        return records::is_max(last_record(pivots));
    }
    false
}

// ContainsAllKeys. Refuses 1, 2 and 3.
#[tactic(auto, using(crate::proofs::Rules::contains_all_keys))]
pub fn contains_all_keys(pivots: &[u8]) -> Result<bool, Refusal>
    ensures { result ≡ contains_all_keys_answer pivots.now }
{
    table_checks::check_pivots(pivots, false, false)?;
    Ok(whole(pivots))
}

// Whether the range from a key up to what a record stands for lies in the table.
#[tactic(auto, using(crate::proofs::Rules::spans))]
fn spans(pivots: &[u8], left: &[u8], right: &[u8]) -> bool
    requires { WFPivots (elements pivots.now) ≡ true }
    ensures { result ≡ ContainsRange (elements pivots.now) (key left.now) (element right.now) }
{
    if keys::passes(records::record_at(pivots, 0), left, false) {
        return !keys::is_below(last_record(pivots), right);
    }
    false
}

// Cause 2 of the range's ends.
fn misread(left: &[u8], right: &[u8]) -> bool
    ensures { result ≡ (too_long left.now || not_element right.now) }
{
    if MAX_LEN < left.len() {
        return true;
    }
    !records::holds_element(right)
}

// Cause 9 of the range; else whether it lies in the table.
#[tactic(auto, using(crate::proofs::Rules::ask_range))]
fn ask_range(pivots: &[u8], left: &[u8], right: &[u8]) -> Result<bool, Refusal>
    requires { WFPivots (elements pivots.now) ≡ true }
    ensures { result ≡ answer ((not (lt (key left.now) (element right.now)) ⇒ NotBelow) ∷ []) (ContainsRange (elements pivots.now) (key left.now) (element right.now)) }
{
    if keys::passes(right, left, false) {
        return Err(Refusal::NotBelow);
    }
    Ok(spans(pivots, left, right))
}

// ContainsRange: whether the range from a key up to an element lies in the table. Refuses 1, 2, 3 and 9.
#[tactic(auto, using(crate::proofs::Rules::contains_range))]
pub fn contains_range(pivots: &[u8], left: &[u8], right: &[u8]) -> Result<bool, Refusal>
    ensures { result ≡ contains_range_answer pivots.now left.now right.now }
{
    table_checks::check_pivots(pivots, right.len() != RECORD_SIZE, misread(left, right))?;
    ask_range(pivots, left, right)
}
