// A bucket whose entries rise, beside pivots: the check of both, causes 1, 2, 3 and 14. No public function has a `requires`.
#![tactic(auto)]

ghost use Rattle.std.specs.Prelude.{◌≡◌, true, false, ◌+◌, ◌/◌, ◌<◌, length};
ghost use Rattle.model.specs.keys.Order.{lt};
ghost use Rattle.model.specs.records.Record.{record_size, element};
ghost use Rattle.model.specs.inner.Places.{entry_at};
ghost use Rattle.model.specs.buckets.Bucket.{entry_size, entry_record, entry_bytes, entries, entries_rise};
ghost use Rattle.model.specs.calls.Refusals.{paired, answer};
ghost use Rattle.model.specs.calls.TableCalls.{pivot_causes};
ghost use Rattle.model.specs.calls.BucketCalls.{entries_read, bucket_causes};
ghost use Rattle.entry_order.specs.Rising.{rising_causes};

use model::{ENTRY_SIZE, RECORD_SIZE, Refusal};

// The record at the head of the entry at a place; an empty part where there are fewer.
#[tactic(auto, using(crate::proofs::Rules::record_at))]
pub fn record_at(bucket: &[u8], i: usize) -> &[u8]
    ensures { result.now ≡ entry_record (entry_at bucket.now i) }
{
    if bucket.len() / ENTRY_SIZE <= i {
        return &bucket[..0];
    }
    let at = i * ENTRY_SIZE;
    let end = at + RECORD_SIZE;
    &bucket[at..end]
}

// Whether the entry at a place is below the next.
#[tactic(auto, using(crate::proofs::Rules::rises_at))]
fn rises_at(bucket: &[u8], i: usize) -> bool
    requires { (entries_read (entry_bytes bucket.now) ≡ true) × (i + 1 < length bucket.now / entry_size) }
    ensures { result ≡ lt (element (entry_record (entry_at bucket.now i))) (element (entry_record (entry_at bucket.now (i + 1)))) }
{
    keys::compare_padded(record_at(bucket, i), record_at(bucket, i + 1)).is_lt()
}

// Whether the entries rise.
#[tactic(auto, using(crate::proofs::Rules::entries_rise))]
fn entries_rise(bucket: &[u8]) -> bool
    requires { entries_read (entry_bytes bucket.now) ≡ true }
    ensures { result ≡ entries_rise (entries bucket.now) }
{
    let count = bucket.len() / ENTRY_SIZE;
    for i in 0..count.saturating_sub(1) {
        if !rises_at(bucket, i) {
            return false;
        }
    }
    true
}

// Causes 1, 2 and 3 of pivots and bucket, by number over both; else the count of pivots.
#[tactic(auto, using(crate::proofs::Rules::check_both))]
fn check_both(pivots: &[u8], bucket: &[u8], wrong: bool) -> Result<usize, Refusal>
    ensures { result ≡ answer (paired (pivot_causes false wrong pivots.now) (bucket_causes false bucket.now)) (length pivots.now / record_size) }
{
    let first = pivot_checks::check_pivots(pivots, false, wrong);
    let second = entries::check_bucket(bucket, false);
    refusals::earlier(first, second)
}

// Causes 1, 2, 3 and 14; else the count of pivots. The caller says whether another argument has cause 2.
#[tactic(auto, using(crate::proofs::Rules::check_rising))]
pub fn check_rising(pivots: &[u8], bucket: &[u8], wrong: bool) -> Result<usize, Refusal>
    ensures { result ≡ answer (rising_causes wrong pivots.now bucket.now) (length pivots.now / record_size) }
{
    let count = check_both(pivots, bucket, wrong)?;
    if !entries_rise(bucket) {
        return Err(Refusal::EntriesUnsorted);
    }
    Ok(count)
}
