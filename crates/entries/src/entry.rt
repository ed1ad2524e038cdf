// The entry at a place.
ghost use Rattle.std.specs.Prelude.{◌≡◌};
ghost use Rattle.model.specs.inner.Places.{entry_at};

use model::ENTRY_SIZE;

// The entry at a place, as a part of the bucket; an empty part where there are fewer.
#[tactic(auto, using(crate::proofs::Rules::entry_at))]
pub fn entry_at(bucket: &[u8], i: usize) -> &[u8]
    ensures { result.now ≡ entry_at bucket.now i }
{
    if bucket.len() / ENTRY_SIZE <= i {
        return &bucket[..0];
    }
    let at = i * ENTRY_SIZE;
    let end = at + ENTRY_SIZE;
    &bucket[at..end]
}
