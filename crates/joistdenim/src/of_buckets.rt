// The calls on buckets.
ghost use Rattle.std.specs.Prelude.{◌≡◌};
ghost use Rattle.model.specs.calls.Refusals.{answer_number, told, decided_answer};
ghost use Rattle.model.specs.calls.BucketCalls.{translate_bucket_answer, translate_bucket_leaves, will_fit_answer};

use answers::{decided_answer, tell};

#[unsafe(no_mangle)]
pub extern "C" fn jd_translate_bucket(
    bucket: &[u8],
    prefix: &[u8],
    new_prefix: &[u8],
    dest: &mut [u8],
    value: &mut u64,
) -> u32
    ensures number { result ≡ answer_number (translate_bucket_answer bucket.now prefix.now new_prefix.now dest.old) }
    ensures value { value.new ≡ told (translate_bucket_answer bucket.now prefix.now new_prefix.now dest.old) value.old }
    ensures written { dest.new ≡ translate_bucket_leaves bucket.now prefix.now new_prefix.now dest.old }
{
    tell(
        buckets::translate_bucket(bucket, prefix, new_prefix, dest),
        value,
    )
}

#[unsafe(no_mangle)]
pub extern "C" fn jd_translate_bucket_will_fit(
    bucket: &[u8],
    prefix: &[u8],
    new_prefix: &[u8],
    dest_len: u64,
    value: &mut u64,
) -> u32
    ensures number { result ≡ answer_number (decided_answer (will_fit_answer bucket.now prefix.now new_prefix.now dest_len)) }
    ensures value { value.new ≡ told (decided_answer (will_fit_answer bucket.now prefix.now new_prefix.now dest_len)) value.old }
{
    tell(
        decided_answer(buckets::translate_bucket_will_fit(
            bucket,
            prefix,
            new_prefix,
            dest_len as usize,
        )),
        value,
    )
}
