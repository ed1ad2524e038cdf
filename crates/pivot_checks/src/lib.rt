// The check of lent pivots, causes 1 to 3. No public function has a `requires`.
#![tactic(auto)]

ghost use Rattle.std.specs.Prelude.{◌≡◌, true, false, ◌&&◌, ◌-◌, ◌/◌, ◌<◌, ◌≤◌, length};
ghost use Rattle.model.specs.keys.Order.{lt};
ghost use Rattle.model.specs.records.Record.{record_size, reading, element_reading, element};
ghost use Rattle.model.specs.inner.Places.{record_at};
ghost use Rattle.model.specs.calls.Refusals.{answer};
ghost use Rattle.model.specs.calls.TableCalls.{not_pivot_count, pivot_causes};

use model::{MAX_PIVOTS, MIN_PIVOTS, RECORD_SIZE, Refusal};

// Whether a slice isn't whole records, or not as many as a table may have.
#[tactic(auto, using(crate::proofs::Rules::not_pivot_count))]
pub fn not_pivot_count(pivots: &[u8]) -> bool
    ensures { result ≡ not_pivot_count pivots.now }
{
    let count = pivots.len() / RECORD_SIZE;
    pivots.len() % RECORD_SIZE != 0 || count < MIN_PIVOTS || MAX_PIVOTS < count
}

// Whether pivots that rise up to the place before i also rise from there to i, where both are read.
#[tactic(auto, using(crate::proofs::Rules::rises_on))]
fn rises_on(pivots: &[u8], i: usize, rises: bool) -> bool
    requires { (1 ≤ i) × (i < length pivots.now / record_size) × (element_reading (reading (record_at pivots.now (i - 1))) ≡ true) × (element_reading (reading (record_at pivots.now i)) ≡ true) }
    ensures { result ≡ (rises && lt (element (record_at pivots.now (i - 1))) (element (record_at pivots.now i))) }
{
    let here = records::record_at(pivots, i - 1);
    let next = records::record_at(pivots, i);
    rises && keys::compare_padded(here, next).is_lt()
}

// Causes 2 and 3, in one pass: each record is read, and compared with the one before it.
#[tactic(auto, using(crate::proofs::Rules::read_pivots))]
fn read_pivots(pivots: &[u8]) -> Result<usize, Refusal>
    requires { not_pivot_count pivots.now ≡ false }
    ensures { result ≡ answer (pivot_causes false false pivots.now) (length pivots.now / record_size) }
{
    let count = pivots.len() / RECORD_SIZE;
    if !records::holds_key(records::record_at(pivots, 0)) {
        return Err(Refusal::Malformed);
    }
    let mut rises = true;
    for i in 1..count {
        let last = i + 1 == count;
        if !records::holds_pivot(records::record_at(pivots, i), last) {
            return Err(Refusal::Malformed);
        }
        rises = rises_on(pivots, i, rises);
    }
    if !rises {
        return Err(Refusal::Unsorted);
    }
    Ok(count)
}

// Causes 1 to 3 of pivots; else their count. The caller says whether another argument has cause 1, or cause 2.
#[tactic(auto, using(crate::proofs::Rules::check_pivots))]
pub fn check_pivots(pivots: &[u8], shape: bool, wrong: bool) -> Result<usize, Refusal>
    ensures { result ≡ answer (pivot_causes shape wrong pivots.now) (length pivots.now / record_size) }
{
    if shape || not_pivot_count(pivots) {
        return Err(Refusal::Shape);
    }
    if wrong {
        return Err(Refusal::Malformed);
    }
    read_pivots(pivots)
}
