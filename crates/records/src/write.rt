// Records written at the head of a destination, up to its end.
ghost use Rattle.std.specs.Prelude.{◌≡◌};
ghost use Rattle.model.specs.records.Record.{record_of};
ghost use Rattle.model.specs.inner.Written.{clipped};
ghost use Rattle.model.specs.inner.Written.{into};

use copies::copy;
use model::RECORD_SIZE;

// The record with a given length field and the first 64 bytes of k. It is made in an array, which the
// compiler knows to be apart from k: a record copied from slice to slice costs a move for each byte.
#[tactic(auto, using(crate::proofs::Writing::record_made))]
pub fn record_of(field: u16, k: &[u8]) -> [u8; 66]
    ensures { result ≡ record_of field (clipped k.now) }
{
    let mut made = [0; RECORD_SIZE];
    [made[0], made[1]] = field.to_be_bytes();
    copy(k, &mut made[2..]);
    made
}

// Writes a record to the head of dst, as far as there is room.
pub fn store(made: [u8; 66], dst: &mut [u8])
    ensures { dst.new ≡ into made dst.old }
{
    copy(&made, dst);
}

// Writes the record with a given length field and the first 64 bytes of k to the head of dst.
pub fn put_record(field: u16, k: &[u8], dst: &mut [u8])
    ensures { dst.new ≡ into (record_of field (clipped k.now)) dst.old }
{
    store(record_of(field, k), dst);
}
