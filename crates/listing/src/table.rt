// The list of the table that an input holds.
ghost use Rattle.std.specs.Prelude.{◌≡◌, ◌≤◌, length};
ghost use Rattle.model.specs.inner.Written.{into};
ghost use Rattle.model.specs.list.ShelfList.{refused_text, list_table_answer, list_table_leaves};
ghost use Rattle.listing.specs.Text.{count_of, found_text};

use digits::number_field;
use list_inputs::{check_list, list_edges, list_pivots};
use list_lines::table_text;
use model::Refusal;

// The line of a table that is refused, as far as there is room. Answers its length.
#[tactic(auto, using(crate::proofs::Rules::refused_text))]
fn refused_text(r: Refusal, dest: &mut [u8]) -> usize
    ensures length { result ≡ length (refused_text r) }
    ensures written { dest.new ≡ into (refused_text r) dest.old }
{
    records::copy(b"refused\t", dest);
    let n = 8;
    let at = scan::least(n, dest.len());
    let number = u32::from(r) as u8;
    n + number_field(number, b'\n', &mut dest[at..])
}

// The text that a check calls for, as far as there is room. Answers its length.
#[tactic(auto, using(crate::proofs::Rules::found_text))]
fn found_text(pivots: &[u8], edges: &[u8], found: Result<usize, Refusal>, dest: &mut [u8]) -> usize
    requires { count_of found ≤ 64 }
    ensures length { result ≡ length (found_text found pivots.now edges.now) }
    ensures written { dest.new ≡ into (found_text found pivots.now edges.now) dest.old }
{
    match found {
        Ok(count) => table_text(pivots, edges, count, dest),
        Err(r) => refused_text(r, dest),
    }
}

// The list of the table that the input holds: the text at the head of dest. Answers its length. Refuses 10.
// The text is measured first, where there is no room at all, so that nothing is written that is then refused.
#[tactic(auto, using(crate::proofs::Rules::list_table))]
pub fn list_table(input: &[u8], dest: &mut [u8]) -> Result<usize, Refusal>
    ensures answered { result ≡ list_table_answer input.now dest.old }
    ensures written { dest.new ≡ list_table_leaves input.now dest.old }
{
    let pivots = list_pivots(input);
    let edges = list_edges(input);
    let found = check_list(input);
    let n = found_text(pivots, edges, found, &mut dest[..0]);
    if dest.len() < n {
        return Err(Refusal::NoRoom);
    }
    found_text(pivots, edges, found, dest);
    Ok(n)
}
