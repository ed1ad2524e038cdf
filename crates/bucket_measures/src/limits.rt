// Lengths: of the two prefixes, and of a destination.
ghost use Rattle.std.specs.Prelude.{◌≡◌, ◌||◌, ◌*◌, ltb};
ghost use Rattle.model.specs.keys.Key.{too_long};
ghost use Rattle.model.specs.buckets.Bucket.{entry_size};

use model::{ENTRY_SIZE, MAX_LEN};

// Cause 2 of the prefixes.
pub fn too_long(prefix: &[u8], new_prefix: &[u8]) -> bool
    ensures { result ≡ (too_long prefix.now || too_long new_prefix.now) }
{
    MAX_LEN < prefix.len() || MAX_LEN < new_prefix.len()
}

// Cause 10: whether a destination of so many bytes holds fewer entries than are kept. By a quotient, since a product could wrap.
pub fn too_short(dest_len: usize, kept: usize) -> bool
    ensures { result ≡ ltb dest_len (kept * entry_size) }
{
    dest_len / ENTRY_SIZE < kept
}
