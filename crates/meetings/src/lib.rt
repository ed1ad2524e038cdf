// Where two tables meet: the check before they are put together. No public function has a `requires`.
#![tactic(auto)]

ghost use Rattle.std.specs.Prelude.{◌≡◌, true, ◌/◌, length};
ghost use Rattle.model.specs.records.Record.{record_size, elements};
ghost use Rattle.model.specs.tables.Tables.{WFPivots};
ghost use Rattle.model.specs.cuts.Join.{not_meeting};
ghost use Rattle.model.specs.calls.Refusals.{answer};
ghost use Rattle.model.specs.calls.InsertionCalls.{too_many_pivots};
ghost use Rattle.model.specs.calls.JoinCalls.{two_tables_causes, joined_pivots, meeting_causes};

use model::{MAX_PIVOTS, RECORD_SIZE, Refusal};

// Causes 1 to 4 of both tables, by number over all four slices; else the count of the first's pivots.
#[tactic(auto, using(crate::proofs::Rules::check_tables))]
fn check_tables(
    first_pivots: &[u8],
    first_edges: &[u8],
    second_pivots: &[u8],
    second_edges: &[u8],
) -> Result<usize, Refusal>
    ensures { result ≡ answer (two_tables_causes first_pivots.now first_edges.now second_pivots.now second_edges.now) (length first_pivots.now / record_size) }
{
    let first = table_checks::check_table(first_pivots, first_edges, false, false);
    let second = table_checks::check_table(second_pivots, second_edges, false, false);
    refusals::earlier(first, second)
}

// Cause 13: whether the last pivot of the first isn't the first of the second, which is a key.
#[tactic(auto, using(crate::proofs::Rules::are_apart))]
fn are_apart(first_pivots: &[u8], second_pivots: &[u8]) -> bool
    requires { (WFPivots (elements first_pivots.now) ≡ true) × (WFPivots (elements second_pivots.now) ≡ true) }
    ensures { result ≡ not_meeting (elements first_pivots.now) (elements second_pivots.now) }
{
    let last = first_pivots.len() / RECORD_SIZE - 1;
    let end = records::record_at(first_pivots, last);
    let start = records::record_at(second_pivots, 0);
    keys::compare_elements(end, start).is_ne()
}

// Cause 12: whether the two have more than 64 pivots, the one where they meet counted once.
#[tactic(auto, using(crate::proofs::Rules::are_too_many))]
fn are_too_many(first_pivots: &[u8], second_pivots: &[u8]) -> bool
    requires { WFPivots (elements second_pivots.now) ≡ true }
    ensures { result ≡ too_many_pivots (joined_pivots first_pivots.now second_pivots.now) }
{
    let first = first_pivots.len() / RECORD_SIZE;
    let behind = second_pivots.len() / RECORD_SIZE - 1;
    MAX_PIVOTS < first + behind
}

// Causes 1 to 4, 13 and 12 of two tables; else the count of the first's pivots.
#[tactic(auto, using(crate::proofs::Rules::check_meeting))]
pub fn check_meeting(
    first_pivots: &[u8],
    first_edges: &[u8],
    second_pivots: &[u8],
    second_edges: &[u8],
) -> Result<usize, Refusal>
    ensures { result ≡ answer (meeting_causes first_pivots.now first_edges.now second_pivots.now second_edges.now) (length first_pivots.now / record_size) }
{
    let count = check_tables(first_pivots, first_edges, second_pivots, second_edges)?;
    let apart = are_apart(first_pivots, second_pivots);
    let many = are_too_many(first_pivots, second_pivots);
    if apart {
        return Err(Refusal::NotMeeting);
    }
    if many {
        return Err(Refusal::TooManyPivots);
    }
    Ok(count)
}
