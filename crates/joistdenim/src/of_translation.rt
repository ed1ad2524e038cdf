// The translation of a key, and the pair of its slot.
ghost use Rattle.std.specs.Prelude.{◌≡◌};
ghost use Rattle.model.specs.calls.Refusals.{answer_number, told};
ghost use Rattle.model.specs.calls.PairRecordCalls.{translate_pair_answer, translate_pair_leaves};
ghost use Rattle.model.specs.calls.TranslationCalls.{translate_key_answer, translate_key_leaves};

use answers::tell;

#[unsafe(no_mangle)]
pub extern "C" fn jd_translate_key(
    pivots: &[u8],
    edges: &[u8],
    key: &[u8],
    dest: &mut [u8],
    value: &mut u64,
) -> u32
    ensures number { result ≡ answer_number (translate_key_answer pivots.now edges.now key.now dest.old) }
    ensures value { value.new ≡ told (translate_key_answer pivots.now edges.now key.now dest.old) value.old }
    ensures written { dest.new ≡ translate_key_leaves pivots.now edges.now key.now dest.old }
{
    tell(translation::translate_key(pivots, edges, key, dest), value)
}

#[unsafe(no_mangle)]
pub extern "C" fn jd_translate(
    pivots: &[u8],
    edges: &[u8],
    key: &[u8],
    dest: &mut [u8],
    value: &mut u64,
) -> u32
    ensures number { result ≡ answer_number (translate_pair_answer pivots.now edges.now key.now dest.old) }
    ensures value { value.new ≡ told (translate_pair_answer pivots.now edges.now key.now dest.old) value.old }
    ensures written { dest.new ≡ translate_pair_leaves pivots.now edges.now key.now dest.old }
{
    tell(
        pair_translation::translate_pair(pivots, edges, key, dest),
        value,
    )
}
