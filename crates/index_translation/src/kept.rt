// How many entries are kept, from place to place.
ghost use Rattle.std.specs.Prelude.{◌≡◌, ◌+◌, ◌/◌, ◌≤◌, ◌<◌, length};
ghost use Rattle.model.specs.buckets.Bucket.{entry_size};
ghost use Rattle.model.specs.buckets.Index.{encode_index};
ghost use Rattle.model.specs.calls.Refusals.{over};
ghost use Rattle.index_translation.specs.Kept.{kept_before, new_places, Placed};

use model::PLACE_SIZE;

// 1 where the entry at a place is kept, since its key begins with the prefix, else 0.
#[tactic(auto, using(crate::proofs::Rules::kept_at))]
fn kept_at(bucket: &[u8], i: usize, prefix: &[u8]) -> usize
    requires { i < length bucket.now / entry_size }
    ensures { kept_before bucket.now prefix.now i + result ≡ kept_before bucket.now prefix.now (i + 1) }
{
    if !entries::begins_with(entries::entry_at(bucket, i), prefix) {
        return 0;
    }
    1
}

// How many of the entries from one place up to another are kept.
#[tactic(auto, using(crate::proofs::Rules::kept_between))]
fn kept_between(bucket: &[u8], from: usize, to: usize, prefix: &[u8]) -> usize
    requires { (from ≤ to) × (to ≤ length bucket.now / entry_size) }
    ensures { kept_before bucket.now prefix.now from + result ≡ kept_before bucket.now prefix.now to }
{
    let mut kept = 0;
    for i in from..to {
        kept += kept_at(bucket, i, prefix);
    }
    kept
}

// Writes, for each place of an index, how many of the entries before it are kept. No entry is looked at twice.
#[tactic(auto, using(crate::proofs::Rules::write_kept))]
pub(crate) fn write_kept(bucket: &[u8], index: &[u8], prefix: &[u8], dest: &mut [u8])
    requires { Placed bucket.now index.now × (length index.now ≤ length dest.old) }
    ensures { dest.new ≡ over (encode_index (new_places bucket.now prefix.now index.now)) dest.old }
{
    let count = index.len() / PLACE_SIZE;
    let mut kept = 0;
    let mut from = 0;
    for i in 0..count {
        let to = indexes::place_at(index, i);
        kept += kept_between(bucket, from, to, prefix);
        let at = i * PLACE_SIZE;
        indexes::put_place(kept as u16, &mut dest[at..]);
        from = to;
    }
}
