// The bounds of a range under another prefix: whether they are short, and their records.
ghost use Rattle.std.specs.Prelude.{◌≡◌, true, false, ◌+◌, ◌*◌, ◌-◌, ◌≤◌, length};
ghost use Rattle.model.specs.keys.Key.{max_len, IsPrefix, change_prefix, too_long};
ghost use Rattle.model.specs.keys.Order.{key};
ghost use Rattle.model.specs.records.Record.{record_size, element, encode, encode_all};
ghost use Rattle.model.specs.tables.Tables.{short_element};
ghost use Rattle.model.specs.translation.Renaming.{translate_right};
ghost use Rattle.model.specs.calls.Refusals.{over};
ghost use Rattle.model.specs.inner.Written.{into};
ghost use Rattle.model.specs.calls.KeyCalls.{uncommon_prefix_leaves};
ghost use Rattle.model.specs.calls.RenamingCalls.{long_bounds, new_bounds, both_bounds};
ghost use Rattle.pivot_pair.specs.Range.{has_prefix, Prefixed};

use model::{MAX_LEN, RECORD_SIZE};

// Whether what a record stands for is a key that begins with the prefix.
#[tactic(auto, using(crate::proofs::Rules::has_prefix))]
pub(crate) fn has_prefix(rec: &[u8], prefix: &[u8]) -> bool
    ensures { result ≡ has_prefix prefix.now (element rec.now) }
{
    !records::is_max(rec) && scan::is_prefix(prefix, records::key_bytes(rec))
}

// Whether the key with its prefix changed passes 64 bytes.
#[tactic(auto, using(crate::proofs::Rules::changed_long))]
fn changed_long(k: &[u8], prefix: &[u8], new_prefix: &[u8]) -> bool
    requires { (IsPrefix prefix.now k.now ≡ true) × (length k.now ≤ max_len) × (length new_prefix.now ≤ max_len) }
    ensures { result ≡ too_long (change_prefix prefix.now new_prefix.now k.now) }
{
    MAX_LEN < new_prefix.len() + (k.len() - prefix.len())
}

// Cause 8 of either bound. The caller says whether the right one has the prefix; else its new bound is never too long.
#[tactic(auto, using(crate::proofs::Rules::too_long))]
pub(crate) fn too_long(
    left: &[u8],
    right: &[u8],
    prefix: &[u8],
    new_prefix: &[u8],
    goes_on: bool,
) -> bool
    requires { (Prefixed left.now right.now prefix.now new_prefix.now) × (goes_on ≡ has_prefix prefix.now (element right.now)) }
    ensures { result ≡ long_bounds (new_bounds left.now right.now prefix.now new_prefix.now) }
{
    changed_long(left, prefix, new_prefix)
        || goes_on && changed_long(records::key_bytes(right), prefix, new_prefix)
}

// Writes the record of the key with its prefix changed to the head of dest.
#[tactic(auto, using(crate::proofs::Rules::put_changed))]
fn put_changed(k: &[u8], prefix: &[u8], new_prefix: &[u8], dest: &mut [u8])
    requires { (length prefix.now ≤ length k.now) × (length new_prefix.now + (length k.now - length prefix.now) ≤ max_len) × (record_size ≤ length dest.old) }
    ensures { dest.new ≡ into (encode (key (change_prefix prefix.now new_prefix.now k.now))) dest.old }
{
    let p = prefix.len();
    records::put_joined(new_prefix, &k[p..], dest);
}

// Writes the record of the upper bound of the new prefix to the head of dest, where there is room for it.
fn put_upper(new_prefix: &[u8], dest: &mut [u8])
    ensures { dest.new ≡ uncommon_prefix_leaves new_prefix.now dest.old }
{
    let _ = upper_bound::shortest_uncommon_prefix(new_prefix, dest);
}

// Writes the record of the new right bound to the head of dest: the right one with its prefix changed or, where it
// lacks the prefix, the upper bound of the new prefix.
#[tactic(auto, using(crate::proofs::Rules::put_right))]
fn put_right(right: &[u8], prefix: &[u8], new_prefix: &[u8], goes_on: bool, dest: &mut [u8])
    requires { (goes_on ≡ has_prefix prefix.now (element right.now)) × (length new_prefix.now ≤ max_len) × (short_element (translate_right prefix.now new_prefix.now (element right.now)) ≡ true) × (record_size ≤ length dest.old) }
    ensures { dest.new ≡ into (encode (translate_right prefix.now new_prefix.now (element right.now))) dest.old }
{
    if goes_on {
        put_changed(records::key_bytes(right), prefix, new_prefix, dest);
    } else {
        put_upper(new_prefix, dest);
    }
}

// Writes the records of both bounds to the head of dest.
#[tactic(auto, using(crate::proofs::Rules::put_bounds))]
pub(crate) fn put_bounds(
    left: &[u8],
    right: &[u8],
    prefix: &[u8],
    new_prefix: &[u8],
    goes_on: bool,
    dest: &mut [u8],
)
    requires { (Prefixed left.now right.now prefix.now new_prefix.now) × (goes_on ≡ has_prefix prefix.now (element right.now)) × (long_bounds (new_bounds left.now right.now prefix.now new_prefix.now) ≡ false) × (2 * record_size ≤ length dest.old) }
    ensures { dest.new ≡ over (encode_all (both_bounds (new_bounds left.now right.now prefix.now new_prefix.now))) dest.old }
{
    put_changed(left, prefix, new_prefix, dest);
    put_right(right, prefix, new_prefix, goes_on, &mut dest[RECORD_SIZE..]);
}
