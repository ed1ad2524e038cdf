// The field of a key. It is written at the head of dest as far as there is room, and its length is answered.
ghost use Rattle.std.specs.Prelude.{◌≡◌, ◌≤◌, length};
ghost use Rattle.model.specs.inner.Written.{into};
ghost use Rattle.digits.specs.Field.{field};
ghost use Rattle.list_fields.specs.Fields.{hex_or, most_bytes, most_text, most_field};

// A key, or a mark in place of the empty one.
#[tactic(auto, using(crate::proofs::Rules::key_text))]
fn key_text(k: &[u8], empty: u8, dest: &mut [u8]) -> usize
    requires { length k.now ≤ most_bytes }
    ensures length { (result ≡ length (hex_or empty k.now)) × (result ≤ most_text) }
    ensures written { dest.new ≡ into (hex_or empty k.now) dest.old }
{
    if k.len() == 0 {
        let mark = [empty];
        records::copy(&mark, dest);
        return 1;
    }
    digits::write_hex(k, dest);
    k.len() * 2
}

// A key, or a mark in place of the empty one, and the byte that ends its field.
#[tactic(auto, using(crate::proofs::Rules::key_field))]
pub(crate) fn key_field(k: &[u8], empty: u8, end: u8, dest: &mut [u8]) -> usize
    requires { length k.now ≤ most_bytes }
    ensures length { (result ≡ length (field (hex_or empty k.now) end)) × (result ≤ most_field) }
    ensures written { dest.new ≡ into (field (hex_or empty k.now) end) dest.old }
{
    let n = key_text(k, empty, dest);
    let at = scan::least(n, dest.len());
    let last = [end];
    records::copy(&last, &mut dest[at..]);
    n + 1
}
