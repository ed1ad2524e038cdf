// The fields of a line. Each is written at the head of dest as far as there is room, and its length is answered.
ghost use Rattle.std.specs.Prelude.{◌≡◌, ◌≤◌, length};
ghost use Rattle.model.specs.inner.Written.{into};
ghost use Rattle.list_fields.specs.Fields.{pivot_field, shared_field, edge_field, most_field};

use crate::keys::key_field;
use model::EdgeKind;

// A pivot.
#[tactic(auto, using(crate::proofs::Rules::element_field))]
pub fn element_field(rec: &[u8], dest: &mut [u8]) -> usize
    ensures length { (result ≡ length (pivot_field rec.now)) × (result ≤ most_field) }
    ensures written { dest.new ≡ into (pivot_field rec.now) dest.old }
{
    if records::is_max(rec) {
        records::copy(b"max\t", dest);
        return 4;
    }
    key_field(records::key_bytes(rec), b'-', b'\t', dest)
}

// The prefix of the range between two pivots.
#[tactic(auto, using(crate::proofs::Rules::shared_field))]
pub fn shared_field(left: &[u8], right: &[u8], dest: &mut [u8]) -> usize
    ensures length { (result ≡ length (shared_field left.now right.now)) × (result ≤ most_field) }
    ensures written { dest.new ≡ into (shared_field left.now right.now) dest.old }
{
    let k = records::key_bytes(left);
    if records::is_max(left) {
        return key_field(&k[..0], b'-', b'\t', dest);
    }
    let n = range_prefix::range_prefix_len(k, right);
    key_field(&k[..n], b'-', b'\t', dest)
}

// An edge, which is the last of a line: `.` where it is empty, `-` where there is none.
#[tactic(auto, using(crate::proofs::Rules::edge_field))]
pub fn edge_field(rec: &[u8], dest: &mut [u8]) -> usize
    ensures length { (result ≡ length (edge_field rec.now)) × (result ≤ most_field) }
    ensures written { dest.new ≡ into (edge_field rec.now) dest.old }
{
    match records::edge_kind(rec) {
        EdgeKind::Prefix(_) => key_field(records::key_bytes(rec), b'.', b'\n', dest),
        EdgeKind::Absent => {
            records::copy(b"-\n", dest);
            2
        }
    }
}
