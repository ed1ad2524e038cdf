// The list of a table.
ghost use Rattle.std.specs.Prelude.{◌≡◌};
ghost use Rattle.model.specs.calls.Refusals.{answer_number, told};
ghost use Rattle.model.specs.list.ShelfList.{list_table_answer, list_table_leaves};

use answers::tell;

#[unsafe(no_mangle)]
pub extern "C" fn jd_list_table(input: &[u8], dest: &mut [u8], value: &mut u64) -> u32
    ensures number { result ≡ answer_number (list_table_answer input.now dest.old) }
    ensures value { value.new ≡ told (list_table_answer input.now dest.old) value.old }
    ensures written { dest.new ≡ list_table_leaves input.now dest.old }
{
    tell(listing::list_table(input, dest), value)
}
