// How many pivots of a checked table stand before a key. No public function has a `requires`.
#![tactic(auto)]

ghost use Rattle.std.specs.Prelude.{◌≡◌, true, false};
ghost use Rattle.model.specs.keys.Key.{too_long};
ghost use Rattle.model.specs.keys.Order.{key, passes, last_place};
ghost use Rattle.model.specs.records.Record.{elements};
ghost use Rattle.model.specs.tables.Tables.{WFPivots};
ghost use Rattle.model.specs.calls.Refusals.{answer};
ghost use Rattle.model.specs.calls.TableCalls.{pivot_causes, table_causes};

use model::{MAX_LEN, RECORD_SIZE, Refusal};

// How many pivots are not above the key or, where strict, below it. They stand first, so the place is found by halving.
#[tactic(auto, using(crate::proofs::Rules::place))]
fn place(pivots: &[u8], k: &[u8], strict: bool) -> usize
    requires { WFPivots (elements pivots.now) ≡ true }
    ensures { result ≡ last_place (passes strict (key k.now)) (elements pivots.now) }
{
    // By hand: `partition_point` wants a slice of elements, and the records are 66-byte parts of one slice of bytes.
    let mut low = 0;
    let mut high = pivots.len() / RECORD_SIZE;
    while low < high {
        let middle = low + (high - low) / 2;
        if keys::passes(records::record_at(pivots, middle), k, strict) {
            low = middle + 1;
        } else {
            high = middle;
        }
    }
    low
}

// Causes 1 to 3 of pivots and a key; else how many pivots are not above the key or, where strict, below it.
#[tactic(auto, using(crate::proofs::Rules::place_in_pivots))]
pub fn place_in_pivots(pivots: &[u8], k: &[u8], strict: bool) -> Result<usize, Refusal>
    ensures { result ≡ answer (pivot_causes false (too_long k.now) pivots.now) (last_place (passes strict (key k.now)) (elements pivots.now)) }
{
    pivot_checks::check_pivots(pivots, false, MAX_LEN < k.len())?;
    Ok(place(pivots, k, strict))
}

// The same of a table with its edges, causes 1 to 4.
#[tactic(auto, using(crate::proofs::Rules::place_in_table))]
pub fn place_in_table(pivots: &[u8], edges: &[u8], k: &[u8], strict: bool) -> Result<usize, Refusal>
    ensures { result ≡ answer (table_causes false (too_long k.now) pivots.now edges.now) (last_place (passes strict (key k.now)) (elements pivots.now)) }
{
    table_checks::check_table(pivots, edges, false, MAX_LEN < k.len())?;
    Ok(place(pivots, k, strict))
}
