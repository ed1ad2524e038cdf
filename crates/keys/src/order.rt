// The order of keys and of elements.
ghost use Rattle.std.specs.Prelude.{◌≡◌, drop};
ghost use Rattle.model.specs.keys.Order.{key, lt, cmp, sign, passes};
ghost use Rattle.model.specs.records.Record.{element};
ghost use Rattle.model.specs.calls.KeyCalls.{compare_answer};
ghost use Rattle.keys.specs.Padded.{padded_order};

use model::{RECORD_SIZE, Refusal};
use std::cmp::Ordering;

// The order of two keys by single bytes, written out: of `a.get(n).cmp(&b.get(n))` the check leaves the result unproved.
#[tactic(auto, using(crate::proofs::Rules::compare_bytes))]
fn compare_bytes(a: &[u8], b: &[u8]) -> Ordering
    ensures { sign result ≡ cmp (key a.now) (key b.now) }
{
    let n = scan::count_bytes(a, b);
    if a.len() <= n {
        if b.len() <= n {
            return Ordering::Equal;
        }
        return Ordering::Less;
    }
    if b.len() <= n {
        return Ordering::Greater;
    }
    if a[n] < b[n] {
        return Ordering::Less;
    }
    Ordering::Greater
}

// The order of two keys. Whole words first, then the last few bytes.
#[tactic(auto, using(crate::proofs::Rules::compare_keys))]
pub fn compare_keys(a: &[u8], b: &[u8]) -> Ordering
    ensures { sign result ≡ cmp (key a.now) (key b.now) }
{
    let order = scan::order_words(a, b);
    if order.is_ne() {
        return order;
    }
    let n = a.len().min(b.len()) / 8 * 8;
    compare_bytes(&a[n..], &b[n..])
}

// The order of what two records stand for, whatever their bytes after the key.
#[tactic(auto, using(crate::proofs::Rules::compare_elements))]
pub fn compare_elements(a: &[u8], b: &[u8]) -> Ordering
    ensures { sign result ≡ cmp (element a.now) (element b.now) }
{
    if records::is_max(a) {
        if records::is_max(b) {
            return Ordering::Equal;
        }
        return Ordering::Greater;
    }
    if records::is_max(b) {
        return Ordering::Less;
    }
    compare_keys(records::key_bytes(a), records::key_bytes(b))
}

// The bytes after a record's length field.
fn after_field(rec: &[u8]) -> &[u8]
    ensures { result.now ≡ drop 2 rec.now }
{
    rec.get(2..).unwrap_or(&[])
}

// The order of two records by their bytes. Of records that are read as elements it is the order of what they stand for
// (law `padded_elements`): the zeros after a key let both be compared by words to their end, and where the words agree, or
// one is max, the length fields decide.
#[tactic(auto, using(crate::proofs::Rules::compare_padded))]
pub fn compare_padded(a: &[u8], b: &[u8]) -> Ordering
    ensures { sign result ≡ padded_order a.now b.now }
{
    let x = records::length_field(a);
    let y = records::length_field(b);
    if 64 < x || 64 < y {
        return x.cmp(&y);
    }
    scan::order_words(after_field(a), after_field(b)).then(x.cmp(&y))
}

// cmp: the order of two elements, -1, 0 or 1. Refuses 1 and 2.
#[tactic(auto, using(crate::proofs::Rules::compare))]
pub fn compare(a: &[u8], b: &[u8]) -> Result<i64, Refusal>
    ensures { result ≡ compare_answer a.now b.now }
{
    if a.len() != RECORD_SIZE || b.len() != RECORD_SIZE {
        return Err(Refusal::Shape);
    }
    if !records::holds_element(a) || !records::holds_element(b) {
        return Err(Refusal::Malformed);
    }
    // Document 01 asks for a signed answer; all orders below the call are an Ordering.
    Ok(compare_padded(a, b) as i64)
}

// Whether what a record stands for is not above the key k or, where strict, below it.
#[tactic(auto, using(crate::proofs::Rules::passes))]
pub fn passes(rec: &[u8], k: &[u8], strict: bool) -> bool
    ensures { result ≡ passes strict (key k.now) (element rec.now) }
{
    if records::is_max(rec) {
        return false;
    }
    let order = compare_keys(records::key_bytes(rec), k);
    if strict { order.is_lt() } else { order.is_le() }
}

// Whether what one record stands for is below what another does.
#[tactic(auto, using(crate::proofs::Rules::is_below))]
pub fn is_below(a: &[u8], b: &[u8]) -> bool
    ensures { result ≡ lt (element a.now) (element b.now) }
{
    compare_elements(a, b).is_lt()
}
