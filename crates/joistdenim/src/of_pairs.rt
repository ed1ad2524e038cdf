// The calls on pairs.
ghost use Rattle.std.specs.Prelude.{◌≡◌};
ghost use Rattle.model.specs.calls.Refusals.{answer_number, told};
ghost use Rattle.model.specs.calls.PairRecordCalls.{reverse_pair_answer, reverse_pair_leaves, apply_pair_answer, apply_pair_leaves, compose_pairs_answer, compose_pairs_leaves};

use answers::tell;

#[unsafe(no_mangle)]
pub extern "C" fn jd_reverse_pair(pair: &[u8], dest: &mut [u8], value: &mut u64) -> u32
    ensures number { result ≡ answer_number (reverse_pair_answer pair.now dest.old) }
    ensures value { value.new ≡ told (reverse_pair_answer pair.now dest.old) value.old }
    ensures written { dest.new ≡ reverse_pair_leaves pair.now dest.old }
{
    tell(pair_records::reverse_pair(pair, dest), value)
}

#[unsafe(no_mangle)]
pub extern "C" fn jd_apply_pair(pair: &[u8], key: &[u8], dest: &mut [u8], value: &mut u64) -> u32
    ensures number { result ≡ answer_number (apply_pair_answer pair.now key.now dest.old) }
    ensures value { value.new ≡ told (apply_pair_answer pair.now key.now dest.old) value.old }
    ensures written { dest.new ≡ apply_pair_leaves pair.now key.now dest.old }
{
    tell(pair_records::apply_pair(pair, key, dest), value)
}

#[unsafe(no_mangle)]
pub extern "C" fn jd_compose_pairs(a: &[u8], b: &[u8], dest: &mut [u8], value: &mut u64) -> u32
    ensures number { result ≡ answer_number (compose_pairs_answer a.now b.now dest.old) }
    ensures value { value.new ≡ told (compose_pairs_answer a.now b.now dest.old) value.old }
    ensures written { dest.new ≡ compose_pairs_leaves a.now b.now dest.old }
{
    tell(pair_records::compose_pairs(a, b, dest), value)
}
