// An answer at the boundary: a number, and a value behind a pointer.
#![tactic(auto)]

ghost use Rattle.std.specs.Prelude.{◌≡◌};
ghost use Rattle.model.specs.calls.Refusals.{answer_number, told, decided_answer};

use model::Refusal;

// An answer, told by a number and through a pointer.
#[tactic(auto, using(crate::proofs::Rules::tell))]
pub fn tell(a: Result<usize, Refusal>, value: &mut u64) -> u32
    ensures number { result ≡ answer_number a }
    ensures value { value.new ≡ told a value.old }
{
    match a {
        Ok(n) => {
            *value = n as u64;
            0
        }
        Err(r) => u32::from(r),
    }
}

// An answer that is an order: -1, 0 or 1 behind the pointer.
#[tactic(auto, using(crate::proofs::Rules::tell_order))]
pub fn tell_order(c: Result<i64, Refusal>, order: &mut i64) -> u32
    ensures number { result ≡ answer_number c }
    ensures value { order.new ≡ told c order.old }
{
    match c {
        Ok(z) => {
            *order = z;
            0
        }
        Err(refusal) => u32::from(refusal),
    }
}

// The number alone.
#[tactic(auto, using(crate::proofs::Rules::tell_number))]
pub fn tell_number(a: Result<usize, Refusal>) -> u32
    ensures { result ≡ answer_number a }
{
    match a {
        Ok(_) => 0,
        Err(r) => u32::from(r),
    }
}

// Yes and no as 1 and 0.
#[tactic(auto, using(crate::proofs::Rules::decided_answer))]
pub fn decided_answer(d: Result<bool, Refusal>) -> Result<usize, Refusal>
    ensures { result ≡ decided_answer d }
{
    Ok(usize::from(d?))
}
