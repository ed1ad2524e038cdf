// What an input holds: the pivot count in two bytes, high byte first, then pivots, then edges. No public function has a
// `requires`.
#![tactic(auto)]

ghost use Rattle.std.specs.Prelude.{◌≡◌, ◌/◌, ◌<◌, length};
ghost use Rattle.model.specs.records.Record.{record_size};
ghost use Rattle.model.specs.calls.Refusals.{answer};
ghost use Rattle.model.specs.list.ShelfList.{list_count, list_pivots, list_edges, not_list_size, list_causes};

use model::{RECORD_SIZE, Refusal};

fn wide(x: u16) -> usize
    ensures { (result ≡ x) × (result < 65536) }
{
    x as usize
}

// The pivot count.
fn list_count(input: &[u8]) -> usize
    ensures { (result ≡ list_count input.now) × (result < 65536) }
{
    wide(records::length_field(input))
}

// The pivots, as far as there are bytes.
#[tactic(auto, using(crate::proofs::Rules::list_pivots))]
pub fn list_pivots(input: &[u8]) -> &[u8]
    ensures { result.now ≡ list_pivots input.now }
{
    if input.len() < 2 {
        return &input[..0];
    }
    let n = list_count(input) * RECORD_SIZE;
    let end = 2 + scan::least(n, input.len() - 2);
    &input[2..end]
}

// What follows the pivots.
#[tactic(auto, using(crate::proofs::Rules::list_edges))]
pub fn list_edges(input: &[u8]) -> &[u8]
    ensures { result.now ≡ list_edges input.now }
{
    let n = 2 + list_count(input) * RECORD_SIZE;
    let at = scan::least(n, input.len());
    &input[at..]
}

// Whether there are missing or extra bytes.
#[tactic(auto, using(crate::proofs::Rules::not_list_size))]
fn not_list_size(input: &[u8]) -> bool
    ensures { result ≡ not_list_size input.now }
{
    let count = list_count(input);
    if count == 0 {
        return input.len() != 2;
    }
    input.len() != 2 + (count + (count - 1)) * RECORD_SIZE
}

// Causes 1 to 4 of the table; else the count of its pivots.
#[tactic(auto, using(crate::proofs::Rules::check_list))]
pub fn check_list(input: &[u8]) -> Result<usize, Refusal>
    ensures { result ≡ answer (list_causes input.now) (length (list_pivots input.now) / record_size) }
{
    let pivots = list_pivots(input);
    let edges = list_edges(input);
    table_checks::check_table(pivots, edges, not_list_size(input), false)
}
