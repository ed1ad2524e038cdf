// The common run of two keys counted in two ways, for the benchmark alone: no part of the library.
// No public function has a `requires`.
#![tactic(auto)]

ghost use Rattle.std.specs.Prelude.{◌≡◌};
ghost use Rattle.scan.specs.Count.{by_words, by_bytes};

// By words of eight bytes, as the library counts it.
#[tactic(auto, using(scan::proofs::Counts::counted_words))]
#[unsafe(no_mangle)]
pub extern "C" fn count_by_words(a: &[u8], b: &[u8]) -> u64
    ensures { result ≡ by_words a.now b.now }
{
    scan::common_run(a, b) as u64
}

// By single bytes.
#[tactic(auto, using(scan::proofs::Counts::counted_bytes))]
#[unsafe(no_mangle)]
pub extern "C" fn count_by_bytes(a: &[u8], b: &[u8]) -> u64
    ensures { result ≡ by_bytes a.now b.now }
{
    scan::count_bytes(a, b) as u64
}
