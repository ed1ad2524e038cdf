// Where a key stands in a table. No public function has a `requires`.
#![tactic(auto)]

ghost use Rattle.std.specs.Prelude.{◌≡◌, true, ◌||◌, ◌-◌, ◌/◌, eqb, leb, length};
ghost use Rattle.model.specs.keys.Order.{key, lt};
ghost use Rattle.model.specs.records.Record.{record_size, element, elements};
ghost use Rattle.model.specs.inner.Places.{record_at};
ghost use Rattle.model.specs.tables.Tables.{WFPivots, PivotInsertable};
ghost use Rattle.model.specs.calls.Refusals.{answer};
ghost use Rattle.model.specs.calls.TableCalls.{key_causes, bounded_key_answer, valid_left_cut_off_key_answer, pivot_insertable_answer};
ghost use Rattle.model.specs.cuts.Sides.{inside};

use model::{MAX_LEN, RECORD_SIZE, Refusal};
use table_questions::last_record;

// Whether the first pivot passes for the key, and the last does not.
#[tactic(auto, using(crate::proofs::Rules::within))]
fn within(pivots: &[u8], k: &[u8], strict: bool) -> bool
    requires { WFPivots (elements pivots.now) ≡ true }
    ensures { result ≡ inside strict (elements pivots.now) k.now }
{
    if keys::passes(records::record_at(pivots, 0), k, strict) {
        return !keys::passes(last_record(pivots), k, strict);
    }
    false
}

#[tactic(auto, using(crate::proofs::Rules::ask_within))]
fn ask_within(pivots: &[u8], k: &[u8], strict: bool) -> Result<bool, Refusal>
    ensures { result ≡ answer (key_causes pivots.now k.now) (inside strict (elements pivots.now) k.now) }
{
    table_checks::check_pivots(pivots, false, MAX_LEN < k.len())?;
    Ok(within(pivots, k, strict))
}

// BoundedKey: whether the key isn't below the first pivot, and below the last. Refuses 1, 2 and 3.
pub fn bounded_key(pivots: &[u8], key: &[u8]) -> Result<bool, Refusal>
    ensures { result ≡ bounded_key_answer pivots.now key.now }
{
    ask_within(pivots, key, false)
}

// ValidLeftCutOffKey: whether the key is above the first pivot, and not above the last. Refuses 1, 2 and 3.
pub fn valid_left_cut_off_key(pivots: &[u8], key: &[u8]) -> Result<bool, Refusal>
    ensures { result ≡ valid_left_cut_off_key_answer pivots.now key.now }
{
    ask_within(pivots, key, true)
}

// Whether the key is above the pivot before the place, where there is one.
fn follows(pivots: &[u8], place: usize, k: &[u8]) -> bool
    ensures { result ≡ (eqb place 0 || lt (element (record_at pivots.now (place - 1))) (key k.now)) }
{
    if place == 0 {
        return true;
    }
    keys::passes(records::record_at(pivots, place - 1), k, true)
}

// Whether the key is below the pivot at the place, where there is one.
fn precedes(pivots: &[u8], place: usize, k: &[u8]) -> bool
    ensures { result ≡ (leb (length pivots.now / record_size) place || lt (key k.now) (element (record_at pivots.now place))) }
{
    if pivots.len() / RECORD_SIZE <= place {
        return true;
    }
    !keys::passes(records::record_at(pivots, place), k, false)
}

// Whether the key may become a pivot at the place.
#[tactic(auto, using(crate::proofs::Rules::fits_at))]
fn fits_at(pivots: &[u8], place: usize, k: &[u8]) -> bool
    requires { WFPivots (elements pivots.now) ≡ true }
    ensures { result ≡ PivotInsertable (elements pivots.now) place k.now }
{
    if pivots.len() / RECORD_SIZE < place {
        return false;
    }
    if !follows(pivots, place, k) {
        return false;
    }
    precedes(pivots, place, k)
}

// PivotInsertable: whether the key may become a pivot at the place, which may be any number. Refuses 1, 2 and 3.
#[tactic(auto, using(crate::proofs::Rules::pivot_insertable))]
pub fn pivot_insertable(pivots: &[u8], place: usize, key: &[u8]) -> Result<bool, Refusal>
    ensures { result ≡ pivot_insertable_answer pivots.now place key.now }
{
    table_checks::check_pivots(pivots, false, MAX_LEN < key.len())?;
    Ok(fits_at(pivots, place, key))
}
