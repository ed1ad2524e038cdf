// A table written where both destinations have room. No function has a `requires`.
#![tactic(auto)]

ghost use Rattle.std.specs.Prelude.{◌≡◌, [], ◌∷◌, ◌++◌, ◌/◌, ltb, length};
ghost use Rattle.model.specs.declared.Refusal.TheVariants.{NoRoom};
ghost use Rattle.model.specs.records.Record.{record_size};
ghost use Rattle.model.specs.inner.Written.{into};
ghost use Rattle.model.specs.calls.Refusals.{◌⇒◌, answer, leaves};
ghost use Rattle.model.specs.calls.CutCalls.{room_causes};

use model::{RECORD_SIZE, Refusal};

// The length of a, b and c, one after the other; 10 where there is less room. Nothing is added up before it is known
// to have room, since the lengths may have a sum that no usize holds.
#[tactic(auto, using(crate::proofs::Rules::measured))]
fn measured(a: &[u8], b: &[u8], c: &[u8], room: usize) -> Result<usize, Refusal>
    ensures { result ≡ answer ((ltb room (length (a.now ++ (b.now ++ c.now))) ⇒ NoRoom) ∷ []) (length (a.now ++ (b.now ++ c.now))) }
{
    let after_a = room.checked_sub(a.len()).ok_or(Refusal::NoRoom)?;
    let after_b = after_a.checked_sub(b.len()).ok_or(Refusal::NoRoom)?;
    let after_c = after_b.checked_sub(c.len()).ok_or(Refusal::NoRoom)?;
    Ok(room - after_c)
}

// Writes a, then b and then c to the head of dest, as far as there is room.
#[tactic(auto, using(crate::proofs::Rules::join_three))]
fn join_three(a: &[u8], b: &[u8], c: &[u8], dest: &mut [u8])
    ensures { dest.new ≡ into (a.now ++ (b.now ++ c.now)) dest.old }
{
    let n = a.len().min(dest.len());
    records::copy(a, dest);
    records::join(b, c, &mut dest[n..]);
}

// Writes pivots and edges, each in three parts, to the heads of the two destinations, where both have room.
// Answers the number of pivots. Refuses 10.
#[tactic(auto, using(crate::proofs::Rules::write_table))]
pub fn write_table(
    first_pivots: &[u8],
    new_pivots: &[u8],
    last_pivots: &[u8],
    first_edges: &[u8],
    new_edges: &[u8],
    last_edges: &[u8],
    dest_pivots: &mut [u8],
    dest_edges: &mut [u8],
) -> Result<usize, Refusal>
    ensures answered { result ≡ answer (room_causes (length (first_pivots.now ++ (new_pivots.now ++ last_pivots.now))) (length (first_edges.now ++ (new_edges.now ++ last_edges.now))) dest_pivots.old dest_edges.old) (length (first_pivots.now ++ (new_pivots.now ++ last_pivots.now)) / record_size) }
    ensures pivots { dest_pivots.new ≡ leaves (room_causes (length (first_pivots.now ++ (new_pivots.now ++ last_pivots.now))) (length (first_edges.now ++ (new_edges.now ++ last_edges.now))) dest_pivots.old dest_edges.old) (first_pivots.now ++ (new_pivots.now ++ last_pivots.now)) dest_pivots.old }
    ensures edges { dest_edges.new ≡ leaves (room_causes (length (first_pivots.now ++ (new_pivots.now ++ last_pivots.now))) (length (first_edges.now ++ (new_edges.now ++ last_edges.now))) dest_pivots.old dest_edges.old) (first_edges.now ++ (new_edges.now ++ last_edges.now)) dest_edges.old }
{
    let size = measured(first_pivots, new_pivots, last_pivots, dest_pivots.len())?;
    measured(first_edges, new_edges, last_edges, dest_edges.len())?;
    join_three(first_pivots, new_pivots, last_pivots, dest_pivots);
    join_three(first_edges, new_edges, last_edges, dest_edges);
    Ok(size / RECORD_SIZE)
}
