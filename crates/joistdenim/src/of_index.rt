// The calls on a bucket with its index.
ghost use Rattle.std.specs.Prelude.{◌≡◌, true, false};
ghost use Rattle.model.specs.calls.Refusals.{answer_number, told};
ghost use Rattle.model.specs.calls.IndexCalls.{build_index_answer, build_index_leaves, check_index_answer, slot_entries_answer};
ghost use Rattle.model.specs.calls.IndexCalls.{cut_index_answer, cut_index_leaves_bucket, cut_index_leaves_index};
ghost use Rattle.model.specs.calls.IndexCalls.{translate_index_answer, translate_index_leaves_bucket, translate_index_leaves_index};

use answers::tell;

#[unsafe(no_mangle)]
pub extern "C" fn jd_build_index(
    pivots: &[u8],
    bucket: &[u8],
    dest: &mut [u8],
    value: &mut u64,
) -> u32
    ensures number { result ≡ answer_number (build_index_answer pivots.now bucket.now dest.old) }
    ensures value { value.new ≡ told (build_index_answer pivots.now bucket.now dest.old) value.old }
    ensures written { dest.new ≡ build_index_leaves pivots.now bucket.now dest.old }
{
    tell(indexes::build_index(pivots, bucket, dest), value)
}

#[unsafe(no_mangle)]
pub extern "C" fn jd_check_index(pivots: &[u8], bucket: &[u8], index: &[u8], value: &mut u64) -> u32
    ensures number { result ≡ answer_number (check_index_answer pivots.now bucket.now index.now) }
    ensures value { value.new ≡ told (check_index_answer pivots.now bucket.now index.now) value.old }
{
    tell(indexes::check_index(pivots, bucket, index), value)
}

#[unsafe(no_mangle)]
pub extern "C" fn jd_slot_entries(
    pivots: &[u8],
    bucket: &[u8],
    index: &[u8],
    slot: u64,
    value: &mut u64,
) -> u32
    ensures number { result ≡ answer_number (slot_entries_answer pivots.now bucket.now index.now slot) }
    ensures value { value.new ≡ told (slot_entries_answer pivots.now bucket.now index.now slot) value.old }
{
    tell(
        indexes::slot_entries(pivots, bucket, index, slot as usize),
        value,
    )
}

#[unsafe(no_mangle)]
pub extern "C" fn jd_cut_index_left(
    pivots: &[u8],
    bucket: &[u8],
    index: &[u8],
    key: &[u8],
    dest_bucket: &mut [u8],
    dest_index: &mut [u8],
    value: &mut u64,
) -> u32
    ensures number { result ≡ answer_number (cut_index_answer true pivots.now bucket.now index.now key.now dest_bucket.old dest_index.old) }
    ensures value { value.new ≡ told (cut_index_answer true pivots.now bucket.now index.now key.now dest_bucket.old dest_index.old) value.old }
    ensures bucket { dest_bucket.new ≡ cut_index_leaves_bucket true pivots.now bucket.now index.now key.now dest_bucket.old dest_index.old }
    ensures index { dest_index.new ≡ cut_index_leaves_index true pivots.now bucket.now index.now key.now dest_bucket.old dest_index.old }
{
    tell(
        index_cuts::cut_index_left(pivots, bucket, index, key, dest_bucket, dest_index),
        value,
    )
}

#[unsafe(no_mangle)]
pub extern "C" fn jd_cut_index_right(
    pivots: &[u8],
    bucket: &[u8],
    index: &[u8],
    key: &[u8],
    dest_bucket: &mut [u8],
    dest_index: &mut [u8],
    value: &mut u64,
) -> u32
    ensures number { result ≡ answer_number (cut_index_answer false pivots.now bucket.now index.now key.now dest_bucket.old dest_index.old) }
    ensures value { value.new ≡ told (cut_index_answer false pivots.now bucket.now index.now key.now dest_bucket.old dest_index.old) value.old }
    ensures bucket { dest_bucket.new ≡ cut_index_leaves_bucket false pivots.now bucket.now index.now key.now dest_bucket.old dest_index.old }
    ensures index { dest_index.new ≡ cut_index_leaves_index false pivots.now bucket.now index.now key.now dest_bucket.old dest_index.old }
{
    tell(
        index_cuts::cut_index_right(pivots, bucket, index, key, dest_bucket, dest_index),
        value,
    )
}

#[unsafe(no_mangle)]
pub extern "C" fn jd_translate_index(
    pivots: &[u8],
    bucket: &[u8],
    index: &[u8],
    prefix: &[u8],
    new_prefix: &[u8],
    dest_bucket: &mut [u8],
    dest_index: &mut [u8],
    value: &mut u64,
) -> u32
    ensures number { result ≡ answer_number (translate_index_answer pivots.now bucket.now index.now prefix.now new_prefix.now dest_bucket.old dest_index.old) }
    ensures value { value.new ≡ told (translate_index_answer pivots.now bucket.now index.now prefix.now new_prefix.now dest_bucket.old dest_index.old) value.old }
    ensures bucket { dest_bucket.new ≡ translate_index_leaves_bucket pivots.now bucket.now index.now prefix.now new_prefix.now dest_bucket.old dest_index.old }
    ensures index { dest_index.new ≡ translate_index_leaves_index pivots.now bucket.now index.now prefix.now new_prefix.now dest_bucket.old dest_index.old }
{
    tell(
        index_translation::translate_index(
            pivots,
            bucket,
            index,
            prefix,
            new_prefix,
            dest_bucket,
            dest_index,
        ),
        value,
    )
}
