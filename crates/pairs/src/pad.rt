// A prefix in an array of 64 bytes.
ghost use Rattle.std.specs.Prelude.{◌≡◌, ◌≤◌, take};
ghost use Rattle.model.specs.keys.Key.{max_len};
ghost use Rattle.model.specs.records.Record.{padded};
ghost use Rattle.model.specs.inner.Written.{clipped};

use model::MAX_LEN;

// The first 64 bytes of k, and zeros after them.
#[tactic(auto, using(crate::proofs::Rules::padded))]
pub fn padded(k: &[u8]) -> [u8; MAX_LEN]
    ensures { result ≡ padded (clipped k.now) }
{
    let mut made = [0u8; MAX_LEN];
    copies::copy(k, &mut made);
    made
}

// The first n of 64 bytes, and zeros after them.
pub(crate) fn cleared(mut k: [u8; MAX_LEN], n: usize) -> [u8; MAX_LEN]
    requires { n ≤ max_len }
    ensures { result ≡ padded (take n k) }
{
    k[n..].fill(0);
    k
}
