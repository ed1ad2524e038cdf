// Copying by blocks of 16 bytes, and by words of 8.
ghost use Rattle.std.specs.Prelude.{◌≡◌, ◌++◌, ◌≤◌, ◌<◌, length, take};
ghost use Rattle.model.specs.calls.Refusals.{over};
ghost use Rattle.model.specs.inner.Written.{into};

use crate::bytes::copy;

const BLOCK: usize = 16;

const WORD: usize = 8;

// Copies the first block of src to the head of dst. It is read into an array, which the compiler knows to be apart from any
// slice, and so in one move.
#[tactic(auto, using(crate::proofs::Copying::block_put))]
fn copy_block<const N: usize>(src: &[u8], dst: &mut [u8])
    requires { (N ≤ length src.now) × (N ≤ length dst.old) }
    ensures { dst.new ≡ over (take N src.now) dst.old }
{
    let mut block = [0; N];
    block.copy_from_slice(&src[..N]);
    dst[..N].copy_from_slice(&block);
}

// Copies the first n bytes of src to the head of dst, by blocks. The last one ends where the copy does, and may write again
// what the one before it wrote. The loop takes one turn at least, so that two words need no test.
fn copy_blocks<const N: usize>(src: &[u8], n: usize, dst: &mut [u8])
    requires { (0 < N) × (N ≤ n) × (n ≤ length src.now) × (n ≤ length dst.old) }
    ensures { dst.new ≡ over (take n src.now) dst.old }
{
    let last = n - N;
    for i in (0..last + 1).step_by(N) {
        copy_block::<N>(&src[i..], &mut dst[i..]);
    }
    copy_block::<N>(&src[last..], &mut dst[last..]);
}

// As `copy`: src to the head of dst, as far as there is room. By blocks, for keys: a loop over single bytes costs a branch
// that can't be foretold for each of its ends. For a long copy `copy` is as quick, and smaller.
#[tactic(auto, using(crate::proofs::Copying::all_copied))]
pub fn copy_by_blocks(src: &[u8], dst: &mut [u8])
    ensures { dst.new ≡ into src.now dst.old }
{
    let n = src.len().min(dst.len());
    if n < WORD {
        copy(src, dst);
    } else if n < BLOCK {
        copy_blocks::<WORD>(src, n, dst);
    } else {
        copy_blocks::<BLOCK>(src, n, dst);
    }
}

// Writes a and then b to the head of dst, as far as there is room, by blocks.
#[tactic(auto, using(model::proofs::Lists::written_on))]
pub fn join_by_blocks(a: &[u8], b: &[u8], dst: &mut [u8])
    ensures { dst.new ≡ into (a.now ++ b.now) dst.old }
{
    let n = a.len().min(dst.len());
    copy_by_blocks(a, dst);
    copy_by_blocks(b, &mut dst[n..]);
}
