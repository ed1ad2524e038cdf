// Copying by single bytes.
ghost use Rattle.std.specs.Prelude.{◌≡◌, ◌++◌};
ghost use Rattle.model.specs.inner.Written.{into};

// Copies src to the head of dst, as far as there is room. By a loop, since `copy_from_slice` becomes a call of memmove, and
// the archive is to need memcpy and memset alone (include/joistdenim.h).
pub fn copy(src: &[u8], dst: &mut [u8])
    ensures { dst.new ≡ into src.now dst.old }
{
    let n = src.len().min(dst.len());
    for i in 0..n {
        dst[i] = src[i];
    }
}

// Writes a and then b to the head of dst, as far as there is room.
#[tactic(auto, using(model::proofs::Lists::written_on))]
pub fn join(a: &[u8], b: &[u8], dst: &mut [u8])
    ensures { dst.new ≡ into (a.now ++ b.now) dst.old }
{
    let n = a.len().min(dst.len());
    copy(a, dst);
    copy(b, &mut dst[n..]);
}
