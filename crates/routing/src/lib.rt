// The slot of a key in a table. No public function has a `requires`.
#![tactic(auto)]

ghost use Rattle.std.specs.Prelude.{◌≡◌, true, false, not, ◌∷◌, []};
ghost use Rattle.model.specs.declared.Refusal.TheVariants.{OutOfRange, AlreadyPivot, TooManyPivots};
ghost use Rattle.model.specs.keys.Order.{key, passes, last_place};
ghost use Rattle.model.specs.records.Record.{elements};
ghost use Rattle.model.specs.tables.Tables.{WFPivots, ContainsRange, Route, is_pivot};
ghost use Rattle.model.specs.calls.Refusals.{◌⇒◌, answer};
ghost use Rattle.model.specs.calls.TableCalls.{slot_causes, route_answer, cutoff_for_left_answer, cutoff_for_right_answer};
ghost use Rattle.model.specs.cuts.Sides.{inside, cutoff};
ghost use Rattle.model.specs.calls.TableCalls.{edge_slot_causes};
ghost use Rattle.model.specs.calls.InsertionCalls.{inserted_pivots, too_many_pivots, new_pivot_causes};

use model::{MAX_PIVOTS, RECORD_SIZE, Refusal};
use pivot_places::{place_in_pivots, place_in_table};

// The slot that ends the n pivots which pass, where there is one.
#[tactic(auto, using(crate::proofs::Rules::slot_of))]
fn slot_of(pivots: &[u8], k: &[u8], strict: bool, n: usize) -> Result<usize, Refusal>
    requires { (WFPivots (elements pivots.now) ≡ true) × (n ≡ last_place (passes strict (key k.now)) (elements pivots.now)) }
    ensures { result ≡ answer ((not (inside strict (elements pivots.now) k.now) ⇒ OutOfRange) ∷ []) (cutoff strict (elements pivots.now) k.now) }
{
    if n == 0 {
        return Err(Refusal::OutOfRange);
    }
    if n == pivots.len() / RECORD_SIZE {
        return Err(Refusal::OutOfRange);
    }
    Ok(n - 1)
}

// Causes 1 to 3 and 5; else the slot.
#[tactic(auto, using(crate::proofs::Rules::find_slot))]
fn find_slot(pivots: &[u8], k: &[u8], strict: bool) -> Result<usize, Refusal>
    ensures { result ≡ answer (slot_causes pivots.now k.now (inside strict (elements pivots.now) k.now)) (cutoff strict (elements pivots.now) k.now) }
{
    let n = place_in_pivots(pivots, k, strict)?;
    slot_of(pivots, k, strict, n)
}

// Causes 1 to 5 of a table with its edges; else the slot in which a left or a right cut at the key falls. The right one is the key's own.
#[tactic(auto, using(crate::proofs::Rules::slot_with_edges))]
pub fn slot_with_edges(pivots: &[u8], edges: &[u8], k: &[u8], left: bool) -> Result<usize, Refusal>
    ensures { result ≡ answer (edge_slot_causes pivots.now edges.now k.now (inside left (elements pivots.now) k.now)) (cutoff left (elements pivots.now) k.now) }
{
    let n = place_in_table(pivots, edges, k, left)?;
    slot_of(pivots, k, left, n)
}

// The slot that the key is inserted into, where n pivots are not above it. Causes 5, 11 and 12.
#[tactic(auto, using(crate::proofs::Rules::new_slot_of, crate::proofs::Inserting::inserting))]
fn new_slot_of(pivots: &[u8], k: &[u8], n: usize) -> Result<usize, Refusal>
    requires { (WFPivots (elements pivots.now) ≡ true) × (n ≡ last_place (passes false (key k.now)) (elements pivots.now)) }
    ensures { result ≡ answer ((not (ContainsRange (elements pivots.now) (key k.now) (key k.now)) ⇒ OutOfRange) ∷ (is_pivot (elements pivots.now) k.now ⇒ AlreadyPivot) ∷ (too_many_pivots (inserted_pivots pivots.now k.now) ⇒ TooManyPivots) ∷ []) (Route (elements pivots.now) k.now) }
{
    if n == 0 {
        return Err(Refusal::OutOfRange);
    }
    let slot = n - 1;
    let count = pivots.len() / RECORD_SIZE;
    let below = keys::passes(records::record_at(pivots, slot), k, true);
    if !below {
        return Err(Refusal::AlreadyPivot);
    }
    if n == count {
        return Err(Refusal::OutOfRange);
    }
    if MAX_PIVOTS <= count {
        return Err(Refusal::TooManyPivots);
    }
    Ok(slot)
}

// Causes 1 to 5, 11 and 12 of a table with its edges and a key to be inserted; else the slot that it is inserted into.
#[tactic(auto, using(crate::proofs::Rules::new_pivot_slot))]
pub fn new_pivot_slot(pivots: &[u8], edges: &[u8], k: &[u8]) -> Result<usize, Refusal>
    ensures { result ≡ answer (new_pivot_causes pivots.now edges.now k.now) (Route (elements pivots.now) k.now) }
{
    let n = place_in_table(pivots, edges, k, false)?;
    new_slot_of(pivots, k, n)
}

// Route: the slot of a key, whose left pivot is the last one not above it. Refuses 1, 2, 3 and 5.
pub fn route(pivots: &[u8], key: &[u8]) -> Result<usize, Refusal>
    ensures { result ≡ route_answer pivots.now key.now }
{
    find_slot(pivots, key, false)
}

// CutoffForLeft: the slot that a left cut at the key ends in, whose left pivot is the last one below it.
// Refuses 1, 2, 3 and 5.
pub fn cutoff_for_left(pivots: &[u8], key: &[u8]) -> Result<usize, Refusal>
    ensures { result ≡ cutoff_for_left_answer pivots.now key.now }
{
    find_slot(pivots, key, true)
}

// CutoffForRight: the slot that a right cut at the key begins in, which is the key's own. Refuses 1, 2, 3 and 5.
pub fn cutoff_for_right(pivots: &[u8], key: &[u8]) -> Result<usize, Refusal>
    ensures { result ≡ cutoff_for_right_answer pivots.now key.now }
{
    find_slot(pivots, key, false)
}
