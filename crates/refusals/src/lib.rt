// The earlier of two refusals. No public function has a `requires`.
#![tactic(auto)]

ghost use Rattle.std.specs.Prelude.{◌≡◌};
ghost use Rattle.refusals.specs.Earlier.{earlier};

use model::Refusal;

// Of two answers the refusal with the smaller number; else the first one's value.
#[tactic(auto, using(crate::proofs::Rules::earlier))]
pub fn earlier(a: Result<usize, Refusal>, b: Result<usize, Refusal>) -> Result<usize, Refusal>
    ensures { result ≡ earlier a b }
{
    let Err(s) = b else {
        return a;
    };
    let Err(r) = a else {
        return b;
    };
    if u32::from(s) < u32::from(r) {
        return b;
    }
    a
}
