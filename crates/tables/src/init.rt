// The first table.
ghost use Rattle.std.specs.Prelude.{◌≡◌};
ghost use Rattle.model.specs.calls.TableCalls.{init_pivot_table_answer, init_pivot_table_leaves};

use model::{MAX_MARK, MIN_PIVOTS, RECORD_SIZE, Refusal};

// InitPivotTable: the pivots of the first table, the empty key and max, at the head of dest. Answers 2. Refuses 10.
#[tactic(auto, using(crate::proofs::Rules::init_pivot_table))]
pub fn init_pivot_table(dest: &mut [u8]) -> Result<usize, Refusal>
    ensures answered { result ≡ init_pivot_table_answer dest.old }
    ensures written { dest.new ≡ init_pivot_table_leaves dest.old }
{
    if dest.len() < MIN_PIVOTS * RECORD_SIZE {
        return Err(Refusal::NoRoom);
    }
    let none = [0u8; 1];
    records::put_record(0, &none[..0], dest);
    records::put_record(MAX_MARK, &none[..0], &mut dest[RECORD_SIZE..]);
    Ok(MIN_PIVOTS)
}
