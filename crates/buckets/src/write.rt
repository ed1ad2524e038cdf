// The entries that are kept, written one after the other.
ghost use Rattle.std.specs.Prelude.{◌≡◌, true, ◌++◌, ◌+◌, ◌≤◌, length};
ghost use Rattle.std.proofs.Math.Option.{none};
ghost use Rattle.model.specs.keys.Key.{IsPrefix, max_len};
ghost use Rattle.model.specs.records.Record.{record_size, record_of};
ghost use Rattle.model.specs.tables.Tables.{all};
ghost use Rattle.model.specs.buckets.Bucket.{entry_size, entry_of, encode_entry, encode_bucket, translate_entry};
ghost use Rattle.model.specs.calls.Refusals.{first, over};
ghost use Rattle.model.specs.calls.BucketCalls.{short_entry, new_bucket, translate_bucket_causes};
ghost use Rattle.bucket_measures.specs.Kept.{kept_of};
ghost use Rattle.buckets.specs.Checked.{CheckedEntry, kept_bytes};

use entries::entry_at;
use model::{ENTRY_SIZE, RECORD_SIZE};

// The part of an entry that its key fills. `entries::key_of` does the same and asks for the length first; the loop below
// can't know it, and a test for each entry would cost.
#[tactic(auto, using(crate::proofs::Rules::key_of))]
fn key_of(entry: &[u8]) -> &[u8]
    requires { record_size ≤ length entry.now }
    ensures { result.now ≡ (entry_of entry.now).key }
{
    records::key_bytes(&entry[..RECORD_SIZE])
}

// Whether an entry's key begins with the prefix.
fn begins_with(entry: &[u8], prefix: &[u8]) -> bool
    requires { record_size ≤ length entry.now }
    ensures { result ≡ IsPrefix prefix.now (entry_of entry.now).key }
{
    scan::is_prefix_by_words(prefix, key_of(entry))
}

// Writes the record of a key in two parts to the head of dest, which has room for it. `records::put_joined` does the same
// and asks first; it is called, and here a call for each entry would cost.
#[tactic(auto, using(crate::proofs::Rules::put_key))]
fn put_key(first: &[u8], rest: &[u8], dest: &mut [u8])
    requires { (length first.now + length rest.now ≤ max_len) × (record_size ≤ length dest.old) }
    ensures { dest.new ≡ over (record_of (length (first.now ++ rest.now)) (first.now ++ rest.now)) dest.old }
{
    records::put_head((first.len() + rest.len()) as u8, dest);
    records::join_by_blocks(first, rest, &mut dest[2..]);
}

// Writes the translation of an entry whose key begins with the prefix to the head of dest.
#[tactic(auto, using(crate::proofs::Rules::put_kept))]
fn put_kept(entry: &[u8], prefix: &[u8], new_prefix: &[u8], dest: &mut [u8])
    requires { (CheckedEntry entry.now) × (IsPrefix prefix.now (entry_of entry.now).key ≡ true) × (short_entry (translate_entry prefix.now new_prefix.now (entry_of entry.now)) ≡ true) × (entry_size ≤ length dest.old) }
    ensures { dest.new ≡ over (encode_entry (translate_entry prefix.now new_prefix.now (entry_of entry.now))) dest.old }
{
    let key = key_of(entry);
    let from = prefix.len();
    put_key(new_prefix, &key[from..], dest);
    records::copy(&entry[RECORD_SIZE..], &mut dest[RECORD_SIZE..]);
}

// Writes what an entry leaves to the head of dest: its translation where its key begins with the prefix, else nothing.
// Answers the bytes written.
#[tactic(auto, using(crate::proofs::Rules::put_entry))]
fn put_entry(entry: &[u8], prefix: &[u8], new_prefix: &[u8], dest: &mut [u8]) -> usize
    requires { (CheckedEntry entry.now) × (all short_entry (kept_of entry.now prefix.now new_prefix.now) ≡ true) × (length (kept_bytes entry.now prefix.now new_prefix.now) ≤ length dest.old) }
    ensures count { result ≡ length (kept_bytes entry.now prefix.now new_prefix.now) }
    ensures written { dest.new ≡ over (kept_bytes entry.now prefix.now new_prefix.now) dest.old }
{
    if !begins_with(entry, prefix) {
        return 0;
    }
    put_kept(entry, prefix, new_prefix, dest);
    ENTRY_SIZE
}

// Writes the translated bucket, of so many entries, to the head of dest: each entry to what the ones before it left of dest.
// What follows the last that is kept isn't looked at.
#[tactic(auto, using(crate::proofs::Rules::put_entries))]
pub(crate) fn put_entries(
    bucket: &[u8],
    prefix: &[u8],
    new_prefix: &[u8],
    kept: usize,
    dest: &mut [u8],
)
    requires { (first (translate_bucket_causes bucket.now prefix.now new_prefix.now dest.old) ≡ none) × (kept ≡ length (new_bucket bucket.now prefix.now new_prefix.now)) }
    ensures { dest.new ≡ over (encode_bucket (new_bucket bucket.now prefix.now new_prefix.now)) dest.old }
{
    let end = kept * ENTRY_SIZE;
    let mut at = 0;
    for i in 0..bucket.len() / ENTRY_SIZE {
        if end <= at {
            break;
        }
        at += put_entry(entry_at(bucket, i), prefix, new_prefix, &mut dest[at..]);
    }
}
