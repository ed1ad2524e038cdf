// The key of an entry, and the test of its prefix.
ghost use Rattle.std.specs.Prelude.{◌≡◌};
ghost use Rattle.model.specs.keys.Key.{IsPrefix};
ghost use Rattle.model.specs.buckets.Bucket.{entry_of};

use model::RECORD_SIZE;

// The part of an entry that its key fills. Nothing is checked.
#[tactic(auto, using(crate::proofs::Rules::key_of))]
pub fn key_of(entry: &[u8]) -> &[u8]
    ensures { result.now ≡ (entry_of entry.now).key }
{
    if entry.len() < RECORD_SIZE {
        return records::key_bytes(entry);
    }
    records::key_bytes(&entry[..RECORD_SIZE])
}

// Whether an entry's key begins with the prefix.
pub fn begins_with(entry: &[u8], prefix: &[u8]) -> bool
    ensures { result ≡ IsPrefix prefix.now (entry_of entry.now).key }
{
    scan::is_prefix_by_words(prefix, key_of(entry))
}
