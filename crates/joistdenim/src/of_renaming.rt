// A range, pivots and edges under another prefix.
ghost use Rattle.std.specs.Prelude.{◌≡◌};
ghost use Rattle.model.specs.calls.Refusals.{answer_number, told};
ghost use Rattle.model.specs.calls.RenamingCalls.{pivot_pair_answer, pivot_pair_leaves, pivots_answer, pivots_leaves, edges_answer, edges_leaves};

use answers::tell;

#[unsafe(no_mangle)]
pub extern "C" fn jd_translate_pivot_pair(
    left: &[u8],
    right: &[u8],
    prefix: &[u8],
    new_prefix: &[u8],
    dest: &mut [u8],
    value: &mut u64,
) -> u32
    ensures number { result ≡ answer_number (pivot_pair_answer left.now right.now prefix.now new_prefix.now dest.old) }
    ensures value { value.new ≡ told (pivot_pair_answer left.now right.now prefix.now new_prefix.now dest.old) value.old }
    ensures written { dest.new ≡ pivot_pair_leaves left.now right.now prefix.now new_prefix.now dest.old }
{
    tell(
        pivot_pair::translate_pivot_pair(left, right, prefix, new_prefix, dest),
        value,
    )
}

#[unsafe(no_mangle)]
pub extern "C" fn jd_translate_pivots(
    pivots: &[u8],
    prefix: &[u8],
    new_prefix: &[u8],
    end: &[u8],
    dest: &mut [u8],
    value: &mut u64,
) -> u32
    ensures number { result ≡ answer_number (pivots_answer pivots.now prefix.now new_prefix.now end.now dest.old) }
    ensures value { value.new ≡ told (pivots_answer pivots.now prefix.now new_prefix.now end.now dest.old) value.old }
    ensures written { dest.new ≡ pivots_leaves pivots.now prefix.now new_prefix.now end.now dest.old }
{
    tell(
        renaming::translate_pivots(pivots, prefix, new_prefix, end, dest),
        value,
    )
}

#[unsafe(no_mangle)]
pub extern "C" fn jd_translate_edges(
    pivots: &[u8],
    edges: &[u8],
    dest: &mut [u8],
    value: &mut u64,
) -> u32
    ensures number { result ≡ answer_number (edges_answer pivots.now edges.now dest.old) }
    ensures value { value.new ≡ told (edges_answer pivots.now edges.now dest.old) value.old }
    ensures written { dest.new ≡ edges_leaves pivots.now edges.now dest.old }
{
    tell(renaming::translate_edges(pivots, edges, dest), value)
}
