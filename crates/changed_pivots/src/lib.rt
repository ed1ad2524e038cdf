// The check of pivots whose prefix is to be changed, up to a given end. No public function has a `requires`.
#![tactic(auto)]

ghost use Rattle.std.specs.Prelude.{◌≡◌, true, ◌&&◌, ◌||◌, ◌/◌, ◌≤◌, leb, length};
ghost use Rattle.model.specs.keys.Key.{max_len, too_long};
ghost use Rattle.model.specs.records.Record.{record_size, elements};
ghost use Rattle.model.specs.tables.Tables.{WFPivots};
ghost use Rattle.model.specs.calls.Refusals.{answer};
ghost use Rattle.model.specs.calls.KeyCalls.{not_element};
ghost use Rattle.changed_pivots.specs.Renamed.{changeable_causes, renamed_causes};

use model::{MAX_LEN, RECORD_SIZE, Refusal};

// Whether keys that fit so far fit with one of n bytes.
fn fits_too(fit: bool, n: usize, most: usize) -> bool
    ensures { result ≡ (fit && leb n most) }
{
    fit && n <= most
}

// Causes 7 and 8, in one pass: each pivot but the last begins with the prefix, and has at most 64 bytes once it is
// changed.
#[tactic(auto, using(crate::proofs::Rules::check_keys))]
fn check_keys(pivots: &[u8], prefix: &[u8], new_prefix: &[u8]) -> Result<usize, Refusal>
    requires { (WFPivots (elements pivots.now) ≡ true) × (length prefix.now ≤ max_len) × (length new_prefix.now ≤ max_len) }
    ensures { result ≡ answer (changeable_causes pivots.now prefix.now new_prefix.now) (length pivots.now / record_size) }
{
    let count = pivots.len() / RECORD_SIZE;
    let most = MAX_LEN - new_prefix.len() + prefix.len();
    let mut fit = true;
    for i in 0..count - 1 {
        let k = records::key_bytes(records::record_at(pivots, i));
        if !scan::is_prefix(prefix, k) {
            return Err(Refusal::NotPrefix);
        }
        fit = fits_too(fit, k.len(), most);
    }
    if !fit {
        return Err(Refusal::TooLong);
    }
    Ok(count)
}

// Cause 2 of the prefixes and of the end.
fn misread(prefix: &[u8], new_prefix: &[u8], end: &[u8]) -> bool
    ensures { result ≡ (too_long prefix.now || too_long new_prefix.now || not_element end.now) }
{
    MAX_LEN < prefix.len() || MAX_LEN < new_prefix.len() || !records::holds_element(end)
}

// Causes 1, 2, 3, 7 and 8 of pivots with prefix changed to new_prefix in each but the last, and the given end; else the
// count of pivots.
#[tactic(auto, using(crate::proofs::Rules::check_changed))]
pub fn check_changed(
    pivots: &[u8],
    prefix: &[u8],
    new_prefix: &[u8],
    end: &[u8],
) -> Result<usize, Refusal>
    ensures { result ≡ answer (renamed_causes pivots.now prefix.now new_prefix.now end.now) (length pivots.now / record_size) }
{
    let bad = misread(prefix, new_prefix, end);
    pivot_checks::check_pivots(pivots, end.len() != RECORD_SIZE, bad)?;
    check_keys(pivots, prefix, new_prefix)
}
