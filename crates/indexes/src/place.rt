// Places: the number of entries below an element, and a place as two bytes.
ghost use Rattle.std.specs.Prelude.{◌≡◌, true, ◌/◌, ◌<◌, ◌≤◌, length};
ghost use Rattle.model.specs.keys.Order.{lt};
ghost use Rattle.model.specs.records.Record.{element};
ghost use Rattle.model.specs.inner.Places.{entry_at};
ghost use Rattle.model.specs.inner.Written.{into};
ghost use Rattle.model.specs.buckets.Bucket.{entry_size, entry_record, entry_bytes, entries};
ghost use Rattle.model.specs.buckets.Index.{entries_below, place_at, encode_place, places};
ghost use Rattle.model.specs.calls.BucketCalls.{entries_read};
ghost use Rattle.keys.specs.Padded.{Padded};
ghost use Rattle.entry_order.specs.Rising.{Rising};

use entry_order::record_at;
use model::{ENTRY_SIZE, PLACE_SIZE};

// Whether the entry at a place is below what a record stands for.
#[tactic(auto, using(crate::proofs::Rules::is_below))]
fn is_below(bucket: &[u8], i: usize, rec: &[u8]) -> bool
    requires { (entries_read (entry_bytes bucket.now) ≡ true) × (i < length bucket.now / entry_size) × Padded rec.now }
    ensures { result ≡ lt (element (entry_record (entry_at bucket.now i))) (element rec.now) }
{
    keys::compare_padded(record_at(bucket, i), rec).is_lt()
}

// The number of entries below what a record stands for: they stand first, and `from` of them are known.
#[tactic(auto, using(crate::proofs::Rules::place_from))]
pub(crate) fn place_from(bucket: &[u8], rec: &[u8], from: usize) -> usize
    requires { Rising bucket.now × Padded rec.now × (from ≤ length (entries_below (element rec.now) (entries bucket.now))) }
    ensures { result ≡ length (entries_below (element rec.now) (entries bucket.now)) }
{
    let count = bucket.len() / ENTRY_SIZE;
    for i in from..count {
        if !is_below(bucket, i, rec) {
            return i;
        }
    }
    count
}

// A place as two bytes, at the head of dest as far as there is room.
pub fn put_place(n: u16, dest: &mut [u8])
    ensures { dest.new ≡ into (encode_place n) dest.old }
{
    records::copy(&n.to_be_bytes(), dest);
}

// The place of a slot by an index; 0 past the last.
#[tactic(auto, using(crate::proofs::Rules::place_at))]
pub fn place_at(index: &[u8], i: usize) -> usize
    ensures { result ≡ place_at (places index.now) i }
{
    if index.len() / PLACE_SIZE <= i {
        return 0;
    }
    let at = i * PLACE_SIZE;
    let end = at + PLACE_SIZE;
    records::length_field(&index[at..end]) as usize
}
