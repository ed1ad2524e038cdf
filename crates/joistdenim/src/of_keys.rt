// The calls on keys.
ghost use Rattle.std.specs.Prelude.{◌≡◌};
ghost use Rattle.model.specs.calls.Refusals.{answer_number, told};
ghost use Rattle.model.specs.calls.KeyCalls.{compare_answer, pivot_key_answer, entry_key_answer, change_prefix_answer, change_prefix_leaves, pivot_lcp_answer, uncommon_prefix_answer, uncommon_prefix_leaves};

use answers::{tell, tell_order};

#[unsafe(no_mangle)]
pub extern "C" fn jd_compare(a: &[u8], b: &[u8], order: &mut i64) -> u32
    ensures number { result ≡ answer_number (compare_answer a.now b.now) }
    ensures value { order.new ≡ told (compare_answer a.now b.now) order.old }
{
    tell_order(keys::compare(a, b), order)
}

#[unsafe(no_mangle)]
pub extern "C" fn jd_pivot_key(rec: &[u8], value: &mut u64) -> u32
    ensures number { result ≡ answer_number (pivot_key_answer rec.now) }
    ensures value { value.new ≡ told (pivot_key_answer rec.now) value.old }
{
    tell(keys::pivot_key(rec), value)
}

#[unsafe(no_mangle)]
pub extern "C" fn jd_entry_key(entry: &[u8], value: &mut u64) -> u32
    ensures number { result ≡ answer_number (entry_key_answer entry.now) }
    ensures value { value.new ≡ told (entry_key_answer entry.now) value.old }
{
    tell(keys::entry_key(entry), value)
}

#[unsafe(no_mangle)]
pub extern "C" fn jd_change_prefix(
    key: &[u8],
    old: &[u8],
    new: &[u8],
    dest: &mut [u8],
    value: &mut u64,
) -> u32
    ensures number { result ≡ answer_number (change_prefix_answer key.now old.now new.now dest.old) }
    ensures value { value.new ≡ told (change_prefix_answer key.now old.now new.now dest.old) value.old }
    ensures written { dest.new ≡ change_prefix_leaves key.now old.now new.now dest.old }
{
    tell(keys::change_prefix(key, old, new, dest), value)
}

#[unsafe(no_mangle)]
pub extern "C" fn jd_pivot_lcp(left: &[u8], right: &[u8], value: &mut u64) -> u32
    ensures number { result ≡ answer_number (pivot_lcp_answer left.now right.now) }
    ensures value { value.new ≡ told (pivot_lcp_answer left.now right.now) value.old }
{
    tell(range_prefix::pivot_lcp(left, right), value)
}

#[unsafe(no_mangle)]
pub extern "C" fn jd_shortest_uncommon_prefix(
    prefix: &[u8],
    dest: &mut [u8],
    value: &mut u64,
) -> u32
    ensures number { result ≡ answer_number (uncommon_prefix_answer prefix.now dest.old) }
    ensures value { value.new ≡ told (uncommon_prefix_answer prefix.now dest.old) value.old }
    ensures written { dest.new ≡ uncommon_prefix_leaves prefix.now dest.old }
{
    tell(upper_bound::shortest_uncommon_prefix(prefix, dest), value)
}
