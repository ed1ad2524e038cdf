// The lines of a table. Each text is written at the head of dest as far as there is room, and its length is answered.
// No public function has a `requires`.
#![tactic(auto)]

ghost use Rattle.std.specs.Prelude.{◌≡◌, ◌++◌, ◌+◌, ◌*◌, ◌-◌, ◌≤◌, ◌<◌, length};
ghost use Rattle.model.specs.inner.Written.{into};
ghost use Rattle.list_fields.specs.Fields.{pivot_field, most_field};
ghost use Rattle.list_lines.specs.Lines.{line_head, line_rest, line_at, lines_to, text_of, most_line};

use digits::number_field;
use list_fields::{edge_field, element_field, shared_field};
use model::MAX_PIVOTS;

// The two pivots of a slot.
#[tactic(auto, using(crate::proofs::Rules::line_pivots))]
fn line_pivots(left: &[u8], right: &[u8], dest: &mut [u8]) -> usize
    ensures length { (result ≡ length (pivot_field left.now ++ pivot_field right.now)) × (result ≤ 2 * most_field) }
    ensures written { dest.new ≡ into (pivot_field left.now ++ pivot_field right.now) dest.old }
{
    let n = element_field(left, dest);
    let at = n.min(dest.len());
    n + element_field(right, &mut dest[at..])
}

// The prefix of a slot's range, and its edge.
#[tactic(auto, using(crate::proofs::Rules::line_rest))]
fn line_rest(left: &[u8], right: &[u8], edge: &[u8], dest: &mut [u8]) -> usize
    ensures length { (result ≡ length (line_rest left.now right.now edge.now)) × (result ≤ 2 * most_field) }
    ensures written { dest.new ≡ into (line_rest left.now right.now edge.now) dest.old }
{
    let n = shared_field(left, right, dest);
    let at = n.min(dest.len());
    n + edge_field(edge, &mut dest[at..])
}

// The number of a slot, and its pivots.
#[tactic(auto, using(crate::proofs::Rules::line_head))]
fn line_head(i: usize, left: &[u8], right: &[u8], dest: &mut [u8]) -> usize
    requires { i < 100 }
    ensures length { (result ≡ length (line_head i left.now right.now)) × (result ≤ 3 + 2 * most_field) }
    ensures written { dest.new ≡ into (line_head i left.now right.now) dest.old }
{
    let n = number_field(i as u8, b'\t', dest);
    let at = n.min(dest.len());
    n + line_pivots(left, right, &mut dest[at..])
}

// The line of slot i.
#[tactic(auto, using(crate::proofs::Rules::slot_line))]
fn slot_line(pivots: &[u8], edges: &[u8], i: usize, dest: &mut [u8]) -> usize
    requires { i < 100 }
    ensures length { (result ≡ length (line_at pivots.now edges.now i)) × (result ≤ most_line) }
    ensures written { dest.new ≡ into (line_at pivots.now edges.now i) dest.old }
{
    let left = records::record_at(pivots, i);
    let right = records::record_at(pivots, i + 1);
    let n = line_head(i, left, right, dest);
    let at = n.min(dest.len());
    n + line_rest(left, right, records::record_at(edges, i), &mut dest[at..])
}

// A line for each slot of as many pivots.
#[tactic(auto, using(crate::proofs::Rules::slot_lines))]
fn slot_lines(pivots: &[u8], edges: &[u8], count: usize, dest: &mut [u8]) -> usize
    requires { count ≤ 64 }
    ensures length { (result ≡ length (lines_to pivots.now edges.now (count - 1))) × (result ≤ 63 * most_line) }
    ensures written { dest.new ≡ into (lines_to pivots.now edges.now (count - 1)) dest.old }
{
    let mut n = 0;
    for i in 0..count.saturating_sub(1) {
        let at = n.min(dest.len());
        n += slot_line(pivots, edges, i, &mut dest[at..]);
    }
    n
}

// The header, and a line for each slot of as many pivots, of 64 at most: more would have no number of two digits.
pub fn table_text(pivots: &[u8], edges: &[u8], count: usize, dest: &mut [u8]) -> usize
    ensures length { result ≡ length (text_of pivots.now edges.now count) }
    ensures written { dest.new ≡ into (text_of pivots.now edges.now count) dest.old }
{
    let listed = count.min(MAX_PIVOTS);
    records::copy(b"slot\tleft\tright\tshared\tedge\n", dest);
    let n = 28;
    let at = n.min(dest.len());
    n + slot_lines(pivots, edges, listed, &mut dest[at..])
}
