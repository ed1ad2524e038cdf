// The record of a key in two parts, written in its place: each byte goes to the destination once, after zeros whose
// number the compiler knows.
ghost use Rattle.std.specs.Prelude.{◌≡◌, ◌++◌, ◌+◌, ◌≤◌, length};
ghost use Rattle.model.specs.keys.Key.{max_len};
ghost use Rattle.model.specs.records.Record.{record_size, record_of};
ghost use Rattle.model.specs.calls.Refusals.{over};
ghost use Rattle.model.specs.inner.Written.{recorded};
ghost use Rattle.records.specs.Blank.{blank};

use copies::join_by_blocks;
use model::{MAX_LEN, RECORD_SIZE};

// A record with this length, and zeros for a key, at the head of dest. Nothing is written where there is no room for it.
pub fn put_head(n: u8, dest: &mut [u8])
    ensures { dest.new ≡ blank n dest.old }
{
    if dest.len() < RECORD_SIZE {
        return;
    }
    dest[..RECORD_SIZE].fill(0);
    dest[1] = n;
}

// The record of the key a followed by b, at the head of dest, which has room for it.
#[tactic(auto, using(crate::proofs::JoinedKeys::joined_made))]
fn put_whole(a: &[u8], b: &[u8], dest: &mut [u8])
    requires { (length a.now + length b.now ≤ max_len) × (record_size ≤ length dest.old) }
    ensures { dest.new ≡ over (record_of (length (a.now ++ b.now)) (a.now ++ b.now)) dest.old }
{
    put_head((a.len() + b.len()) as u8, dest);
    join_by_blocks(a, b, &mut dest[2..]);
}

// The record of the key a followed by b, at the head of dest. Nothing is written where they have more than 64 bytes, or
// where there is no room for a record.
#[tactic(auto, using(crate::proofs::JoinedKeys::joining))]
pub fn put_joined(a: &[u8], b: &[u8], dest: &mut [u8])
    ensures { dest.new ≡ recorded (a.now ++ b.now) dest.old }
{
    if MAX_LEN < a.len() {
        return;
    }
    if MAX_LEN - a.len() < b.len() {
        return;
    }
    if dest.len() < RECORD_SIZE {
        return;
    }
    put_whole(a, b, dest);
}
