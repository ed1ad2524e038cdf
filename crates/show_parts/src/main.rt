// Calls the functions that no other program reaches, and prints what each gives, a line of hexadecimal, `-` where it is
// empty: the four that hand back a part of what they are lent, and the pair by value applied to a key.
#![tactic(auto)]

ghost use Rattle.std.specs.Prelude.{◌≡◌, ◌*◌, length};
ghost use Rattle.model.specs.records.Record.{record_size};
ghost use Rattle.model.specs.buckets.Bucket.{entry_size};

use model::{ENTRY_SIZE, MAX_LEN, PLACE_SIZE, RECORD_SIZE};
use pairs::PrefixSet;
use std::io;

fn print_part(rt: &impl Print, part: &[u8]) -> io::Result<()> {
    if part.is_empty() {
        print!(rt; "-")?;
    }
    for byte in part {
        print!(rt; "{byte:02x}")?;
    }
    println!(rt;)
}

// The part of a pivot record.
fn show_pivot(rt: &impl Print, field: u16, k: &[u8]) -> io::Result<()> {
    let rec = records::record_of(field, k);
    print_part(rt, keys::pivot_key_part(&rec))
}

// The part of an entry with the same record, and the number 0.
fn show_entry(rt: &impl Print, field: u16, k: &[u8]) -> io::Result<()> {
    let mut entry = [0u8; ENTRY_SIZE];
    records::put_record(field, k, &mut entry);
    print_part(rt, keys::entry_key_part(&entry))
}

// Three pivots, one after the other.
fn put_pivots(a: [u8; RECORD_SIZE], b: [u8; RECORD_SIZE], c: [u8; RECORD_SIZE], dest: &mut [u8])
    requires { length dest.old ≡ 3 * record_size }
{
    records::store(a, dest);
    records::store(b, &mut dest[RECORD_SIZE..]);
    records::store(c, &mut dest[2 * RECORD_SIZE..]);
}

// The part of three pivots at a place.
fn show_place(
    rt: &impl Print,
    a: [u8; RECORD_SIZE],
    b: [u8; RECORD_SIZE],
    c: [u8; RECORD_SIZE],
    place: usize,
) -> io::Result<()> {
    let mut pivots = [0u8; 3 * RECORD_SIZE];
    put_pivots(a, b, c, &mut pivots);
    print_part(rt, tables::get_key_part(&pivots, place))
}

// Two entries, one after the other, with the number 0.
fn put_entries(a: &[u8], b: &[u8], dest: &mut [u8])
    requires { length dest.old ≡ 2 * entry_size }
{
    records::put_record(1, a, dest);
    records::put_record(1, b, &mut dest[ENTRY_SIZE..]);
}

// The part of a bucket with two entries that a slot of three pivots has, by the index that is built.
fn show_slot(rt: &impl Print, a: &[u8], b: &[u8], slot: usize) -> io::Result<()> {
    let mut pivots = [0u8; 3 * RECORD_SIZE];
    let mut bucket = [0u8; 2 * ENTRY_SIZE];
    let mut index = [0u8; 3 * PLACE_SIZE];
    let first = records::record_of(1, b"a");
    let second = records::record_of(1, b"c");
    put_pivots(first, second, records::record_of(1, b"e"), &mut pivots);
    put_entries(a, b, &mut bucket);
    // Where the entries fall no index is built, and that of zeros is refused in its place.
    let _ = indexes::build_index(&pivots, &bucket, &mut index);
    print_part(
        rt,
        indexes::slot_entries_part(&pivots, &bucket, &index, slot),
    )
}

// The first n bytes, as far as there are so many.
fn print_head(rt: &impl Print, bytes: &[u8], n: usize) -> io::Result<()> {
    if n <= bytes.len() {
        print_part(rt, &bytes[..n])
    } else {
        print_part(rt, bytes)
    }
}

// What a pair makes of a key.
fn show_applied(rt: &impl Print, pair: PrefixSet, key: &[u8]) -> io::Result<()> {
    let mut dest = [0u8; MAX_LEN];
    let applied = pair.apply(key, &mut dest);
    let Ok(n) = applied else {
        return println!(rt; "refused");
    };
    print_head(rt, &dest, n)
}

// A key, the empty key, max, no edge, a length of 65, a byte after the key.
fn show_pivots(rt: &impl Print) -> io::Result<()> {
    println!(rt; "pivot_key_part")?;
    show_pivot(rt, 2, b"A0")?;
    show_pivot(rt, 0, b"")?;
    show_pivot(rt, 65535, b"")?;
    show_pivot(rt, 65534, b"")?;
    show_pivot(rt, 65, b"")?;
    show_pivot(rt, 1, b"A0")
}

// A key, max.
fn show_entries(rt: &impl Print) -> io::Result<()> {
    println!(rt; "entry_key_part")?;
    show_entry(rt, 2, b"A0")?;
    show_entry(rt, 65535, b"")
}

// T at places 0, 2 and 3, which is past the last; T with its first two pivots exchanged.
fn show_places(rt: &impl Print) -> io::Result<()> {
    println!(rt; "get_key_part")?;
    let a = records::record_of(2, b"A0");
    let b = records::record_of(2, b"A5");
    let c = records::record_of(1, b"B");
    show_place(rt, a, b, c, 0)?;
    show_place(rt, a, b, c, 2)?;
    show_place(rt, a, b, c, 3)?;
    show_place(rt, b, a, c, 0)
}

// Entries in slots 0 and 1, both in slot 1 and slot 0 empty, slot 2, which is past the last, and entries that fall.
fn show_slots(rt: &impl Print) -> io::Result<()> {
    println!(rt; "slot_entries_part")?;
    show_slot(rt, b"a", b"c", 0)?;
    show_slot(rt, b"a", b"c", 1)?;
    show_slot(rt, b"c", b"d", 0)?;
    show_slot(rt, b"a", b"c", 2)?;
    show_slot(rt, b"c", b"a", 0)
}

// 41 changed to 43 in 41 30, the same pair reversed, an absent pair, and a key that the old prefix doesn't begin.
fn show_pairs(rt: &impl Print) -> io::Result<()> {
    println!(rt; "PrefixSet::apply")?;
    let pair = PrefixSet::of(b"A", b"C");
    show_applied(rt, pair, b"A0")?;
    show_applied(rt, pair.reverse().unwrap_or(PrefixSet::absent()), b"C0")?;
    show_applied(rt, PrefixSet::absent(), b"A0")?;
    show_applied(rt, pair, b"C0")
}

fn main(rt: HostRuntime) -> io::Result<()> {
    show_pivots(&rt)?;
    show_entries(&rt)?;
    show_places(&rt)?;
    show_slots(&rt)?;
    show_pairs(&rt)
}
