// The digits of a key.
ghost use Rattle.std.specs.Prelude.{◌≡◌, ◌*◌, ◌≤◌, ◌<◌, length, get_or};
ghost use Rattle.model.specs.inner.Written.{into};
ghost use Rattle.model.specs.list.ShelfList.{digit, hex};

// The digit of a number below 26, which a byte's tens are too.
#[tactic(auto, unfolding(model::specs::list::ShelfList::digit))]
pub(crate) fn digit_of(d: u8) -> u8
    requires { d < 26 }
    ensures { result ≡ digit d }
{
    if d < 10 {
        return b'0' + d;
    }
    b'a' - 10 + d
}

// The digit at a place among a key's digits, two for each byte.
#[tactic(auto, using(crate::proofs::Digits::even_place, crate::proofs::Digits::odd_place))]
fn hex_digit(k: &[u8], i: usize) -> u8
    requires { i < length k.now * 2 }
    ensures { result ≡ get_or (hex k.now) i 0 }
{
    let b = k[i / 2];
    if i % 2 == 0 {
        return digit_of(b / 16);
    }
    digit_of(b % 16)
}

// The digits of a key, where there is room for all: both of a byte in one turn, which the compiler makes vector code of.
#[tactic(auto, using(crate::proofs::Digits::pair_turn))]
fn hex_pairs(k: &[u8], dest: &mut [u8])
    requires { length k.now * 2 ≤ length dest.old }
    ensures { dest.new ≡ into (hex k.now) dest.old }
{
    for (i, &b) in k.iter().enumerate() {
        dest[2 * i] = digit_of(b / 16);
        dest[2 * i + 1] = digit_of(b % 16);
    }
}

// As many digits of a key as dest has room for, where it has none for all: the last may be a byte's first one alone.
#[tactic(auto, using(crate::proofs::Digits::clipped_turn, crate::proofs::Digits::clipped_end))]
fn hex_clipped(k: &[u8], dest: &mut [u8])
    requires { length dest.old < length k.now * 2 }
    ensures { dest.new ≡ into (hex k.now) dest.old }
{
    for (i, d) in dest.iter_mut().enumerate() {
        *d = hex_digit(k, i);
    }
}

// Writes the digits of a key to the head of dest, as far as there is room. By a quotient, since twice a length could wrap.
pub fn write_hex(k: &[u8], dest: &mut [u8])
    ensures { dest.new ≡ into (hex k.now) dest.old }
{
    if dest.len() / 2 < k.len() {
        hex_clipped(k, dest);
    } else {
        hex_pairs(k, dest);
    }
}
