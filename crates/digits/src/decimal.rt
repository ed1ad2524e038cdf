// The digits of a number.
ghost use Rattle.std.specs.Prelude.{◌≡◌, ◌≤◌, length};
ghost use Rattle.model.specs.inner.Written.{into};
ghost use Rattle.model.specs.list.ShelfList.{decimal};
ghost use Rattle.digits.specs.Field.{field};

use crate::hex::digit_of;

// A number below 100 and the byte that ends its field, at the head of dest as far as there is room. Answers their length.
// Of a larger number the tens are one digit, as in the definition.
#[tactic(auto, unfolding(model::specs::list::ShelfList::decimal, crate::specs::Field::field))]
pub fn number_field(n: u8, end: u8, dest: &mut [u8]) -> usize
    ensures length { (result ≡ length (field (decimal n) end)) × (result ≤ 3) }
    ensures written { dest.new ≡ into (field (decimal n) end) dest.old }
{
    if n < 10 {
        records::copy(&[digit_of(n), end], dest);
        return 2;
    }
    records::copy(&[digit_of(n / 10), digit_of(n % 10), end], dest);
    3
}
