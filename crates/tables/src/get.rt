// The key at a place of a table.
ghost use Rattle.std.specs.Prelude.{◌≡◌, true, ◌∷◌, [], length};
ghost use Rattle.model.specs.declared.Refusal.TheVariants.{NoSuchSlot};
ghost use Rattle.model.specs.records.Record.{elements};
ghost use Rattle.model.specs.tables.Tables.{WFPivots, GetKey};
ghost use Rattle.model.specs.calls.Refusals.{◌⇒◌, answer};
ghost use Rattle.model.specs.calls.TableCalls.{no_key_at, get_key_answer, get_key_part};

use model::{RECORD_SIZE, Refusal};

// Cause 6; else the length of the key at the place.
#[tactic(auto, using(crate::proofs::Rules::length_at))]
fn length_at(pivots: &[u8], place: usize) -> Result<usize, Refusal>
    requires { WFPivots (elements pivots.now) ≡ true }
    ensures { result ≡ answer ((no_key_at (elements pivots.now) place ⇒ NoSuchSlot) ∷ []) (length (GetKey (elements pivots.now) place)) }
{
    if pivots.len() / RECORD_SIZE <= place {
        return Err(Refusal::NoSuchSlot);
    }
    let rec = records::record_at(pivots, place);
    if records::is_max(rec) {
        return Err(Refusal::NoSuchSlot);
    }
    Ok(records::key_bytes(rec).len())
}

// GetKey: the length of the key at a place. Refuses 1, 2, 3 and 6.
#[tactic(auto, using(crate::proofs::Rules::get_key))]
pub fn get_key(pivots: &[u8], place: usize) -> Result<usize, Refusal>
    ensures { result ≡ get_key_answer pivots.now place }
{
    table_checks::check_pivots(pivots, false, false)?;
    length_at(pivots, place)
}

// The part of the table that the key at a place fills, or an empty part where get_key refuses.
#[tactic(auto, using(crate::proofs::Rules::get_key_part))]
pub fn get_key_part(pivots: &[u8], place: usize) -> &[u8]
    ensures { result.now ≡ get_key_part pivots.now place }
{
    match get_key(pivots, place) {
        Ok(_) => records::key_bytes(records::record_at(pivots, place)),
        Err(_) => &pivots[..0],
    }
}
