// The check of a lent bucket.
ghost use Rattle.std.specs.Prelude.{◌≡◌, ◌/◌, ◌<◌, ◌≤◌, length};
ghost use Rattle.model.specs.records.Record.{record_size, reading, key_reading};
ghost use Rattle.model.specs.buckets.Bucket.{entry_size, entry_record, entry_bytes};
ghost use Rattle.model.specs.calls.Refusals.{answer};
ghost use Rattle.model.specs.calls.BucketCalls.{not_entry_count, entries_read, bucket_causes};

use crate::entry::entry_at;
use model::{ENTRY_SIZE, MAX_ENTRIES, RECORD_SIZE, Refusal};

// Whether a slice isn't whole entries, or more than a bucket may have.
#[tactic(auto, using(crate::proofs::Rules::not_entry_count))]
fn not_entry_count(bucket: &[u8]) -> bool
    ensures { result ≡ not_entry_count bucket.now }
{
    bucket.len() % ENTRY_SIZE != 0 || MAX_ENTRIES < bucket.len() / ENTRY_SIZE
}

// Whether an entry's record is a key's.
fn entry_reads(entry: &[u8]) -> bool
    requires { record_size ≤ length entry.now }
    ensures { result ≡ key_reading (reading (entry_record entry.now)) }
{
    records::holds_key(&entry[..RECORD_SIZE])
}

// Whether each entry's record is a key's.
#[tactic(auto, using(crate::proofs::Rules::entries_read))]
fn entries_read(bucket: &[u8]) -> bool
    ensures { result ≡ entries_read (entry_bytes bucket.now) }
{
    for i in 0..bucket.len() / ENTRY_SIZE {
        if !entry_reads(entry_at(bucket, i)) {
            return false;
        }
    }
    true
}

// Causes 1 and 2 of a bucket; else the count of its entries. The caller says whether another argument has cause 2.
#[tactic(auto, using(crate::proofs::Rules::check_bucket), unfolding(model::specs::calls::BucketCalls::bucket_causes))]
pub fn check_bucket(bucket: &[u8], wrong: bool) -> Result<usize, Refusal>
    ensures { result ≡ answer (bucket_causes wrong bucket.now) (length bucket.now / entry_size) }
{
    if not_entry_count(bucket) {
        return Err(Refusal::Shape);
    }
    if wrong || !entries_read(bucket) {
        return Err(Refusal::Malformed);
    }
    Ok(bucket.len() / ENTRY_SIZE)
}
