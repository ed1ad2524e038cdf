// What a record says.
#![tactic(auto)]

ghost use Rattle.std.specs.Prelude.{◌≡◌, false, ◌+◌, ◌≤◌, ◌<◌, eqb};
ghost use Rattle.model.specs.keys.Key.{max_len};
ghost use Rattle.model.specs.records.Record.{length_field, field_reading, key_length, reading, key_bytes, allowed, key_reading, element_reading, edge_reading, no_edge_mark, max_mark};
ghost use Rattle.model.specs.inner.EdgeKinds.{edge_kind};
ghost use Rattle.model.specs.inner.Places.{record_at};

use model::{EdgeKind, MAX_MARK, NO_EDGE_MARK, RECORD_SIZE, Reading};

// The length field: two bytes, high byte first. Not by `u16::from_be_bytes`: the compiler then compares the bytes as they
// lie and turned round, and a record is read, and a bucket checked, in 1.2 times the time.
#[tactic(auto, unfolding(model::specs::records::Record::length_field))]
pub fn length_field(rec: &[u8]) -> u16
    ensures { result ≡ length_field rec.now }
{
    u16::from(byte_scans::byte_at(rec, 0)) * 256 + u16::from(byte_scans::byte_at(rec, 1))
}

// Which of the two marks a length field is.
#[tactic(auto, using(crate::proofs::Rules::field_reading))]
fn mark(n: u16) -> Reading
    requires { no_edge_mark ≤ n }
    ensures { result ≡ field_reading n }
{
    match n {
        65534 => Reading::NoEdge,
        _ => Reading::Max,
    }
}

// The four ways in which a length field is read. The marks stand in one arm: the compiler tests ranges in their order, a
// key's first, but single numbers before all ranges. No `From`, which would have to stand beside `Reading`, in the crate
// of the definitions, where no record is read.
#[tactic(auto, using(crate::proofs::Rules::field_reading))]
pub fn field_reading(n: u16) -> Reading
    ensures { result ≡ field_reading n }
{
    match n {
        0..=64 => Reading::Key(usize::from(n)),
        65..=65533 => Reading::Malformed,
        65534..=65535 => mark(n),
    }
}

// The place in a record from which on all must be zero, by how its length field is read.
fn tail_of(way: Reading) -> usize
    requires { key_length way ≤ max_len }
    ensures { result ≡ 2 + key_length way }
{
    match way {
        Reading::Key(n) => 2 + n,
        Reading::Malformed | Reading::NoEdge | Reading::Max => 2,
    }
}

// What a record says.
#[tactic(auto, using(crate::proofs::Rules::read_record))]
pub fn read_record(rec: &[u8]) -> Reading
    ensures { result ≡ reading rec.now }
{
    let way = field_reading(length_field(rec));
    if scan::zero_from(rec, tail_of(way)) {
        return way;
    }
    Reading::Malformed
}

// Whether a record says max, by its length field.
pub fn is_max(rec: &[u8]) -> bool
    ensures { result ≡ eqb (length_field rec.now) max_mark }
{
    length_field(rec) == MAX_MARK
}

// Whether a reading is allowed: a key, and each mark where it may stand.
fn allows(way: Reading, empty: bool, max: bool) -> bool
    ensures { result ≡ allowed empty max way }
{
    match way {
        Reading::Key(_) => true,
        Reading::Malformed => false,
        Reading::NoEdge => empty,
        Reading::Max => max,
    }
}

// Whether a record is a key's or, where they are allowed, "no edge" or max.
#[tactic(auto, using(crate::proofs::Rules::holds))]
fn holds(rec: &[u8], empty: bool, max: bool) -> bool
    ensures { result ≡ allowed empty max (reading rec.now) }
{
    let way = field_reading(length_field(rec));
    if !allows(way, empty, max) {
        return false;
    }
    scan::zero_from(rec, tail_of(way))
}

// Whether a record is a key's.
pub fn holds_key(rec: &[u8]) -> bool
    ensures { result ≡ key_reading (reading rec.now) }
{
    holds(rec, false, false)
}

// Whether a record is a key's or, as that of the last pivot may be, max.
pub fn holds_pivot(rec: &[u8], last: bool) -> bool
    ensures { result ≡ allowed false last (reading rec.now) }
{
    holds(rec, false, last)
}

// Whether a record is a key's or max.
pub fn holds_element(rec: &[u8]) -> bool
    ensures { result ≡ element_reading (reading rec.now) }
{
    holds(rec, false, true)
}

// Whether a record is an edge's or "no edge".
pub fn holds_edge(rec: &[u8]) -> bool
    ensures { result ≡ edge_reading (reading rec.now) }
{
    holds(rec, true, false)
}

// The bytes that the length field counts, as a part of the record.
#[tactic(auto, using(crate::proofs::Rules::key_bytes))]
pub fn key_bytes(rec: &[u8]) -> &[u8]
    ensures { result.now ≡ key_bytes rec.now }
{
    if rec.len() < 2 {
        return &rec[..0];
    }
    let n = usize::from(length_field(rec)).min(rec.len() - 2);
    let end = 2 + n;
    &rec[2..end]
}

// What kind of edge a record stands for, by its length field.
#[tactic(auto, using(crate::proofs::Rules::edge_kind))]
pub fn edge_kind(rec: &[u8]) -> EdgeKind
    ensures { result ≡ edge_kind rec.now }
{
    if length_field(rec) == NO_EDGE_MARK {
        return EdgeKind::Absent;
    }
    EdgeKind::Prefix(key_bytes(rec).len())
}

// The record at a place among several, as a part of them; an empty part where there are fewer.
#[tactic(auto, using(crate::proofs::Rules::record_at))]
pub fn record_at(bytes: &[u8], i: usize) -> &[u8]
    ensures { result.now ≡ record_at bytes.now i }
{
    if bytes.len() / RECORD_SIZE <= i {
        return &bytes[..0];
    }
    let at = i * RECORD_SIZE;
    let end = at + RECORD_SIZE;
    &bytes[at..end]
}

// The record after that at a place; an empty part where there is none.
#[tactic(auto, using(crate::proofs::Rules::record_after))]
pub fn record_after(bytes: &[u8], i: usize) -> &[u8]
    ensures { result.now ≡ record_at bytes.now (i + 1) }
{
    if bytes.len() / RECORD_SIZE <= i {
        return &bytes[..0];
    }
    record_at(bytes, i + 1)
}
