// The prefix of a range of keys. No public function has a `requires`.
#![tactic(auto)]

ghost use Rattle.std.specs.Prelude.{◌≡◌, not, ◌+◌, ◌≤◌, eqb, length};
ghost use Rattle.model.specs.keys.Key.{is_nil};
ghost use Rattle.model.specs.keys.Order.{key};
ghost use Rattle.model.specs.records.Record.{element};
ghost use Rattle.model.specs.ranges.RangePrefix.{lcp, PivotLcp};
ghost use Rattle.model.specs.calls.KeyCalls.{pivot_lcp_answer};

use model::{MAX_LEN, RECORD_SIZE, Refusal};

// Whether y is x plus 1.
fn is_next(x: u8, y: u8) -> bool
    ensures { result ≡ eqb (x + 1) y }
{
    u16::from(x) + 1 == u16::from(y)
}

// lcp: the length of the prefix of the range from one key up to another.
#[tactic(auto, using(crate::proofs::Rules::key_range_prefix))]
pub fn key_range_prefix(left: &[u8], right: &[u8]) -> usize
    ensures value { result ≡ length (lcp left.now right.now) }
    ensures upper_bound { result ≤ length left.now }
{
    let n = scan::common_run(left, right);
    if left.len() <= n {
        return n;
    }
    let m = n + 1;
    if right.len() != m || !is_next(left[n], right[n]) {
        return n;
    }
    m + byte_scans::ff_run(&left[m..])
}

// PivotLcp up to what a record stands for, whatever the record's bytes after the key.
#[tactic(auto, using(crate::proofs::Rules::range_prefix_len))]
pub fn range_prefix_len(left: &[u8], right: &[u8]) -> usize
    ensures value { result ≡ length (PivotLcp (key left.now) (element right.now)) }
    ensures upper_bound { result ≤ length left.now }
{
    if records::is_max(right) {
        return byte_scans::ff_run(left);
    }
    key_range_prefix(left, records::key_bytes(right))
}

// Whether the prefix of the range between two keys isn't empty. Their first bytes tell.
#[tactic(auto, using(crate::proofs::Rules::has_key_prefix, crate::proofs::Beyond::next_only))]
fn has_key_prefix(left: &[u8], right: &[u8]) -> bool
    ensures { result ≡ not (is_nil (lcp left.now right.now)) }
{
    if left.is_empty() || right.is_empty() {
        return false;
    }
    left[0] == right[0] || right.len() == 1 && is_next(left[0], right[0])
}

// Whether PivotLcp between what two records stand for isn't empty.
#[tactic(auto, using(crate::proofs::Rules::has_range_prefix))]
pub fn has_range_prefix(left: &[u8], right: &[u8]) -> bool
    ensures { result ≡ not (is_nil (PivotLcp (element left.now) (element right.now))) }
{
    if records::is_max(left) {
        return false;
    }
    let k = records::key_bytes(left);
    if records::is_max(right) {
        return byte_scans::byte_at(k, 0) == 255;
    }
    has_key_prefix(k, records::key_bytes(right))
}

// PivotLcp: the length of the prefix of the range from a key up to an element. Refuses 1 and 2.
#[tactic(auto, using(crate::proofs::Rules::pivot_lcp))]
pub fn pivot_lcp(left: &[u8], right: &[u8]) -> Result<usize, Refusal>
    ensures { result ≡ pivot_lcp_answer left.now right.now }
{
    if right.len() != RECORD_SIZE {
        return Err(Refusal::Shape);
    }
    if MAX_LEN < left.len() || !records::holds_element(right) {
        return Err(Refusal::Malformed);
    }
    Ok(range_prefix_len(left, right))
}
