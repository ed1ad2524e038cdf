// What a cut of a bucket and its index writes, where both destinations have room. No public function has a `requires`.
#![tactic(auto)]

ghost use Rattle.std.specs.Prelude.{◌≡◌, map, ◌/◌, ◌≤◌, length};
ghost use Rattle.model.specs.buckets.Bucket.{entry_size};
ghost use Rattle.model.specs.buckets.Index.{encode_index, places};
ghost use Rattle.model.specs.calls.Refusals.{answer, leaves, over};
ghost use Rattle.model.specs.calls.CutCalls.{room_causes};
ghost use Rattle.index_writes.specs.Beside.{place_beside};

use model::{ENTRY_SIZE, PLACE_SIZE, Refusal};

// A place of the whole bucket among the first n entries, or among the others. Both sides keep one place of the slot that
// is cut: on the left that of its end becomes n, on the right that of its beginning 0.
fn place_beside(m: usize, n: usize, left: bool) -> usize
    ensures { (result ≡ place_beside left n m) × (result ≤ m) }
{
    let within = m.min(n);
    if left {
        return within;
    }
    m - within
}

// Writes each place of an index as it is among the first n entries, or among the others, to the head of dest.
#[tactic(auto, using(crate::proofs::Rules::put_places))]
fn put_places(index: &[u8], n: usize, left: bool, dest: &mut [u8])
    requires { length index.now ≤ length dest.old }
    ensures { dest.new ≡ over (encode_index (map (place_beside left n) (places index.now))) dest.old }
{
    let count = index.len() / PLACE_SIZE;
    for i in 0..count {
        let at = i * PLACE_SIZE;
        let place = place_beside(indexes::place_at(index, i), n, left);
        indexes::put_place(place as u16, &mut dest[at..]);
    }
}

// Cause 10; else the entries of one side, and places of the whole index as they are on that side, at the heads of the
// destinations. Answers the number of entries.
#[tactic(auto, using(crate::proofs::Rules::write_side, crate::proofs::Room::side_room))]
pub fn write_side(
    entries: &[u8],
    index: &[u8],
    n: usize,
    left: bool,
    dest_bucket: &mut [u8],
    dest_index: &mut [u8],
) -> Result<usize, Refusal>
    ensures answered { result ≡ answer (room_causes (length entries.now) (length index.now) dest_bucket.old dest_index.old) (length entries.now / entry_size) }
    ensures bucket { dest_bucket.new ≡ leaves (room_causes (length entries.now) (length index.now) dest_bucket.old dest_index.old) entries.now dest_bucket.old }
    ensures index { dest_index.new ≡ leaves (room_causes (length entries.now) (length index.now) dest_bucket.old dest_index.old) (encode_index (map (place_beside left n) (places index.now))) dest_index.old }
{
    if dest_bucket.len() < entries.len() {
        return Err(Refusal::NoRoom);
    }
    if dest_index.len() < index.len() {
        return Err(Refusal::NoRoom);
    }
    records::copy(entries, dest_bucket);
    put_places(index, n, left, dest_index);
    Ok(entries.len() / ENTRY_SIZE)
}
