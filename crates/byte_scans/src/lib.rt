// Scans over lent bytes by single ones: the byte at a place, and the run of FF. No public function has a `requires`.
#![tactic(auto)]

ghost use Rattle.std.specs.Prelude.{◌≡◌, ◌≤◌, length, get_or};
ghost use Rattle.model.specs.ranges.RangePrefix.{lcpright};

// The byte at a place, or 0 past the end.
pub fn byte_at(s: &[u8], i: usize) -> u8
    ensures { result ≡ get_or s.now i 0 }
{
    s.get(i).copied().unwrap_or(0)
}

// The length of the leading run of FF.
pub fn ff_run(a: &[u8]) -> usize
    ensures value { result ≡ length (lcpright a.now) }
    ensures upper_bound { result ≤ length a.now }
{
    a.iter().take_while(|&&x| x == 255).count()
}
