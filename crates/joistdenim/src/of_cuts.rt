// The cuts of a table, and a new pivot in it.
ghost use Rattle.std.specs.Prelude.{◌≡◌, true, false};
ghost use Rattle.model.specs.calls.Refusals.{answer_number, told};
ghost use Rattle.model.specs.calls.CutCalls.{cut_answer, cut_leaves_pivots, cut_leaves_edges};
ghost use Rattle.model.specs.calls.InsertionCalls.{insert_answer, insert_leaves_pivots, insert_leaves_edges};

use answers::tell;

#[unsafe(no_mangle)]
pub extern "C" fn jd_split_left(
    pivots: &[u8],
    edges: &[u8],
    key: &[u8],
    dest_pivots: &mut [u8],
    dest_edges: &mut [u8],
    value: &mut u64,
) -> u32
    ensures number { result ≡ answer_number (cut_answer true pivots.now edges.now key.now dest_pivots.old dest_edges.old) }
    ensures value { value.new ≡ told (cut_answer true pivots.now edges.now key.now dest_pivots.old dest_edges.old) value.old }
    ensures pivots { dest_pivots.new ≡ cut_leaves_pivots true pivots.now edges.now key.now dest_pivots.old dest_edges.old }
    ensures edges { dest_edges.new ≡ cut_leaves_edges true pivots.now edges.now key.now dest_pivots.old dest_edges.old }
{
    tell(
        cuts::split_left(pivots, edges, key, dest_pivots, dest_edges),
        value,
    )
}

#[unsafe(no_mangle)]
pub extern "C" fn jd_split_right(
    pivots: &[u8],
    edges: &[u8],
    key: &[u8],
    dest_pivots: &mut [u8],
    dest_edges: &mut [u8],
    value: &mut u64,
) -> u32
    ensures number { result ≡ answer_number (cut_answer false pivots.now edges.now key.now dest_pivots.old dest_edges.old) }
    ensures value { value.new ≡ told (cut_answer false pivots.now edges.now key.now dest_pivots.old dest_edges.old) value.old }
    ensures pivots { dest_pivots.new ≡ cut_leaves_pivots false pivots.now edges.now key.now dest_pivots.old dest_edges.old }
    ensures edges { dest_edges.new ≡ cut_leaves_edges false pivots.now edges.now key.now dest_pivots.old dest_edges.old }
{
    tell(
        cuts::split_right(pivots, edges, key, dest_pivots, dest_edges),
        value,
    )
}

#[unsafe(no_mangle)]
pub extern "C" fn jd_insert_pivot(
    pivots: &[u8],
    edges: &[u8],
    key: &[u8],
    dest_pivots: &mut [u8],
    dest_edges: &mut [u8],
    value: &mut u64,
) -> u32
    ensures number { result ≡ answer_number (insert_answer pivots.now edges.now key.now dest_pivots.old dest_edges.old) }
    ensures value { value.new ≡ told (insert_answer pivots.now edges.now key.now dest_pivots.old dest_edges.old) value.old }
    ensures pivots { dest_pivots.new ≡ insert_leaves_pivots pivots.now edges.now key.now dest_pivots.old dest_edges.old }
    ensures edges { dest_edges.new ≡ insert_leaves_edges pivots.now edges.now key.now dest_pivots.old dest_edges.old }
{
    tell(
        cuts::insert_pivot(pivots, edges, key, dest_pivots, dest_edges),
        value,
    )
}
