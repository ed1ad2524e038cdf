// Words of eight bytes, and scans by them.
ghost use Rattle.std.specs.Prelude.{◌≡◌, ◌+◌, ◌≤◌, ◌<◌, min, length, drop};
ghost use Rattle.model.specs.keys.Key.{IsPrefix, common_run};
ghost use Rattle.model.specs.records.Record.{all_zero};
ghost use Rattle.scan.specs.Word.{word_of, big_of};

// The four bytes from a place on as one number, the first the lowest. Cut to their length the slice needs no test, and the
// compiler makes one load of it; so in the two below.
#[tactic(auto, using(crate::proofs::ByWords::half_is))]
fn half_at(s: &[u8], at: usize) -> u32
    requires { at + 4 ≤ length s.now }
    ensures { result ≡ word_of 4 (drop at s.now) }
{
    u32::from_le_bytes(s[at..at + 4].try_into().unwrap())
}

// The eight bytes from a place on as one number, the first the lowest.
#[tactic(auto, using(crate::proofs::ByWords::word_is))]
fn word_at(s: &[u8], at: usize) -> u64
    requires { at + 8 ≤ length s.now }
    ensures { result ≡ word_of 8 (drop at s.now) }
{
    u64::from_le_bytes(s[at..at + 8].try_into().unwrap())
}

// The eight bytes from a place on, the first the highest: such words are in the order of their bytes.
#[tactic(auto, using(crate::proofs::BigWords::big_is))]
pub(crate) fn big_at(s: &[u8], at: usize) -> u64
    requires { at + 8 ≤ length s.now }
    ensures { result ≡ big_of 8 0 (drop at s.now) }
{
    u64::from_be_bytes(s[at..at + 8].try_into().unwrap())
}

// A place up to which the first n bytes agree, by words.
#[tactic(auto, using(crate::proofs::ByWords::alike_start, crate::proofs::ByWords::alike_number, crate::proofs::ByWords::alike_end))]
pub(crate) fn equal_words(a: &[u8], b: &[u8], n: usize) -> usize
    requires { (n ≤ length a.now) × (n ≤ length b.now) }
    ensures upper_bound { result ≤ n }
    ensures agreed { result + length (common_run (drop result a.now) (drop result b.now)) ≡ length (common_run a.now b.now) }
{
    for i in 0..n / 8 {
        if word_at(a, 8 * i) != word_at(b, 8 * i) {
            return 8 * i;
        }
    }
    n / 8 * 8
}

// The place i, or four bytes on where these agree.
#[tactic(auto, using(crate::proofs::ByWords::word_agrees))]
pub(crate) fn equal_half(a: &[u8], b: &[u8], n: usize, i: usize) -> usize
    requires { (n ≤ length a.now) × (n ≤ length b.now) × (i ≤ n) }
    ensures upper_bound { result ≤ n }
    ensures agreed { result + length (common_run (drop result a.now) (drop result b.now)) ≡ i + length (common_run (drop i a.now) (drop i b.now)) }
{
    if n - i < 4 {
        return i;
    }
    if half_at(a, i) != half_at(b, i) {
        return i;
    }
    i + 4
}

// The first place from i on where the bytes differ, or n.
#[tactic(auto, using(crate::proofs::Scan::common_turn, crate::proofs::Scan::common_differ, crate::proofs::Scan::common_end))]
pub(crate) fn equal_bytes(a: &[u8], b: &[u8], n: usize, i: usize) -> usize
    requires { (n ≡ min (length a.now) (length b.now)) × (i ≤ n) }
    ensures upper_bound { result ≤ n }
    ensures value { result ≡ i + length (common_run (drop i a.now) (drop i b.now)) }
{
    for j in i..n {
        if a[j] != b[j] {
            return j;
        }
    }
    n
}

// Whether the bytes from a place on are zero, by words. The last word ends where they do, and may look again at bytes of
// the one before it. By places in all of them: where their number is known, as a record's is, the compiler then knows how
// many words there can be, and makes a line of tests without a loop.
#[tactic(auto, using(crate::proofs::Zeros::cleared_start, crate::proofs::Zeros::word_spoils, crate::proofs::Zeros::word_cleared, crate::proofs::Zeros::last_cleared))]
pub(crate) fn zero_words(a: &[u8], from: usize) -> bool
    requires { from + 8 ≤ length a.now }
    ensures { result ≡ all_zero (drop from a.now) }
{
    let end = a.len() - 8;
    for i in (from..end).step_by(8) {
        if word_at(a, i) != 0 {
            return false;
        }
    }
    word_at(a, end) == 0
}

// Whether the bytes from a place in the last word on are zero: the shift takes off those before it.
#[tactic(auto, using(crate::proofs::Zeros::end_cleared))]
pub(crate) fn zero_end(a: &[u8], from: usize) -> bool
    requires { (8 ≤ length a.now) × (length a.now < from + 8) × (from < length a.now) }
    ensures { result ≡ all_zero (drop from a.now) }
{
    let start = a.len() - 8;
    let before = 8 * (from - start);
    word_at(a, start) >> before == 0
}

// Whether all bytes are zero, a byte at a time.
pub(crate) fn zero_bytes(a: &[u8]) -> bool
    ensures { result ≡ all_zero a.now }
{
    a.iter().all(|&x| x == 0)
}

// Whether k begins with p, by words. The last word ends where p does, and may look again at bytes of the one before it.
#[tactic(auto, using(crate::proofs::Beginning::begins_start, crate::proofs::Beginning::word_differs, crate::proofs::Beginning::begins_number, crate::proofs::Beginning::last_decides))]
pub(crate) fn begins_by_words(p: &[u8], k: &[u8]) -> bool
    requires { (8 ≤ length p.now) × (length p.now ≤ length k.now) }
    ensures { result ≡ IsPrefix p.now k.now }
{
    let last = p.len() - 8;
    for i in 0..(last + 7) / 8 {
        if word_at(p, 8 * i) != word_at(k, 8 * i) {
            return false;
        }
    }
    word_at(p, last) == word_at(k, last)
}
