// The calls on tables.
ghost use Rattle.std.specs.Prelude.{◌≡◌};
ghost use Rattle.model.specs.calls.Refusals.{answer_number, told, decided_answer};
ghost use Rattle.model.specs.calls.TableCalls.{wf_pivots_answer, wf_edges_answer, contains_all_keys_answer, contains_range_answer, bounded_key_answer, valid_left_cut_off_key_answer, pivot_insertable_answer, get_key_answer, init_pivot_table_answer, init_pivot_table_leaves, route_answer, cutoff_for_left_answer, cutoff_for_right_answer};

use answers::{decided_answer, tell, tell_number};

#[unsafe(no_mangle)]
pub extern "C" fn jd_wf_pivots(pivots: &[u8]) -> u32
    ensures { result ≡ answer_number (decided_answer (wf_pivots_answer pivots.now)) }
{
    tell_number(decided_answer(tables::wf_pivots(pivots)))
}

#[unsafe(no_mangle)]
pub extern "C" fn jd_wf_edges(pivots: &[u8], edges: &[u8]) -> u32
    ensures { result ≡ answer_number (decided_answer (wf_edges_answer pivots.now edges.now)) }
{
    tell_number(decided_answer(tables::wf_edges(pivots, edges)))
}

#[unsafe(no_mangle)]
pub extern "C" fn jd_contains_all_keys(pivots: &[u8], value: &mut u64) -> u32
    ensures number { result ≡ answer_number (decided_answer (contains_all_keys_answer pivots.now)) }
    ensures value { value.new ≡ told (decided_answer (contains_all_keys_answer pivots.now)) value.old }
{
    tell(decided_answer(tables::contains_all_keys(pivots)), value)
}

#[unsafe(no_mangle)]
pub extern "C" fn jd_contains_range(
    pivots: &[u8],
    left: &[u8],
    right: &[u8],
    value: &mut u64,
) -> u32
    ensures number { result ≡ answer_number (decided_answer (contains_range_answer pivots.now left.now right.now)) }
    ensures value { value.new ≡ told (decided_answer (contains_range_answer pivots.now left.now right.now)) value.old }
{
    tell(
        decided_answer(tables::contains_range(pivots, left, right)),
        value,
    )
}

#[unsafe(no_mangle)]
pub extern "C" fn jd_bounded_key(pivots: &[u8], key: &[u8], value: &mut u64) -> u32
    ensures number { result ≡ answer_number (decided_answer (bounded_key_answer pivots.now key.now)) }
    ensures value { value.new ≡ told (decided_answer (bounded_key_answer pivots.now key.now)) value.old }
{
    tell(decided_answer(tables::bounded_key(pivots, key)), value)
}

#[unsafe(no_mangle)]
pub extern "C" fn jd_valid_left_cut_off_key(pivots: &[u8], key: &[u8], value: &mut u64) -> u32
    ensures number { result ≡ answer_number (decided_answer (valid_left_cut_off_key_answer pivots.now key.now)) }
    ensures value { value.new ≡ told (decided_answer (valid_left_cut_off_key_answer pivots.now key.now)) value.old }
{
    tell(
        decided_answer(tables::valid_left_cut_off_key(pivots, key)),
        value,
    )
}

#[unsafe(no_mangle)]
pub extern "C" fn jd_pivot_insertable(pivots: &[u8], place: u64, key: &[u8], value: &mut u64) -> u32
    ensures number { result ≡ answer_number (decided_answer (pivot_insertable_answer pivots.now place key.now)) }
    ensures value { value.new ≡ told (decided_answer (pivot_insertable_answer pivots.now place key.now)) value.old }
{
    tell(
        decided_answer(tables::pivot_insertable(pivots, place as usize, key)),
        value,
    )
}

#[unsafe(no_mangle)]
pub extern "C" fn jd_get_key(pivots: &[u8], place: u64, value: &mut u64) -> u32
    ensures number { result ≡ answer_number (get_key_answer pivots.now place) }
    ensures value { value.new ≡ told (get_key_answer pivots.now place) value.old }
{
    tell(tables::get_key(pivots, place as usize), value)
}

#[unsafe(no_mangle)]
pub extern "C" fn jd_init_pivot_table(dest: &mut [u8], value: &mut u64) -> u32
    ensures number { result ≡ answer_number (init_pivot_table_answer dest.old) }
    ensures value { value.new ≡ told (init_pivot_table_answer dest.old) value.old }
    ensures written { dest.new ≡ init_pivot_table_leaves dest.old }
{
    tell(tables::init_pivot_table(dest), value)
}

#[unsafe(no_mangle)]
pub extern "C" fn jd_route(pivots: &[u8], key: &[u8], value: &mut u64) -> u32
    ensures number { result ≡ answer_number (route_answer pivots.now key.now) }
    ensures value { value.new ≡ told (route_answer pivots.now key.now) value.old }
{
    tell(routing::route(pivots, key), value)
}

#[unsafe(no_mangle)]
pub extern "C" fn jd_cutoff_for_left(pivots: &[u8], key: &[u8], value: &mut u64) -> u32
    ensures number { result ≡ answer_number (cutoff_for_left_answer pivots.now key.now) }
    ensures value { value.new ≡ told (cutoff_for_left_answer pivots.now key.now) value.old }
{
    tell(routing::cutoff_for_left(pivots, key), value)
}

#[unsafe(no_mangle)]
pub extern "C" fn jd_cutoff_for_right(pivots: &[u8], key: &[u8], value: &mut u64) -> u32
    ensures number { result ≡ answer_number (cutoff_for_right_answer pivots.now key.now) }
    ensures value { value.new ≡ told (cutoff_for_right_answer pivots.now key.now) value.old }
{
    tell(routing::cutoff_for_right(pivots, key), value)
}
