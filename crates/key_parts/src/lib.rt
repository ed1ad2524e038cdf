// The key of a pivot record or of an entry: its length, and the part of the caller's slice that it fills.
// No public function has a `requires`.
#![tactic(auto)]

ghost use Rattle.std.specs.Prelude.{◌≡◌};
ghost use Rattle.model.specs.calls.KeyCalls.{pivot_key_answer, pivot_key_part, entry_key_answer, entry_key_part};

use model::{ENTRY_SIZE, RECORD_SIZE, Reading, Refusal};

// The length of a pivot record's key. Refuses 1 and 2; max and "no edge" are 2.
#[tactic(auto, using(crate::proofs::Rules::pivot_key))]
pub fn pivot_key(rec: &[u8]) -> Result<usize, Refusal>
    ensures { result ≡ pivot_key_answer rec.now }
{
    if rec.len() != RECORD_SIZE {
        return Err(Refusal::Shape);
    }
    match records::read_record(rec) {
        Reading::Key(n) => Ok(n),
        Reading::Malformed | Reading::NoEdge | Reading::Max => Err(Refusal::Malformed),
    }
}

// The part of a pivot record that its key fills, or an empty part where pivot_key refuses.
#[tactic(auto, using(crate::proofs::Rules::pivot_key_part))]
pub fn pivot_key_part(rec: &[u8]) -> &[u8]
    ensures { result.now ≡ pivot_key_part rec.now }
{
    let Ok(n) = pivot_key(rec) else {
        return &rec[..0];
    };
    let end = 2 + n;
    &rec[2..end]
}

// The length of an entry's key. Refuses 1 and 2; both marks are 2.
#[tactic(auto, using(crate::proofs::Rules::entry_key))]
pub fn entry_key(entry: &[u8]) -> Result<usize, Refusal>
    ensures { result ≡ entry_key_answer entry.now }
{
    if entry.len() != ENTRY_SIZE {
        return Err(Refusal::Shape);
    }
    pivot_key(&entry[..RECORD_SIZE])
}

// The part of an entry that its key fills, or an empty part where entry_key refuses.
#[tactic(auto, using(crate::proofs::Rules::entry_key_part))]
pub fn entry_key_part(entry: &[u8]) -> &[u8]
    ensures { result.now ≡ entry_key_part entry.now }
{
    if entry.len() != ENTRY_SIZE {
        return &entry[..0];
    }
    pivot_key_part(&entry[..RECORD_SIZE])
}
