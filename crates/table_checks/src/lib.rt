// The check of a lent table, causes 1 to 4, for every call that is lent one; and by name that of pivots. No public function
// has a `requires`.
#![tactic(auto)]

ghost use Rattle.std.specs.Prelude.{◌≡◌, not, ◌||◌, ◌+◌, ◌/◌, ◌<◌, length};
ghost use Rattle.model.specs.records.Record.{record_size, element, edge_of, records};
ghost use Rattle.model.specs.inner.Places.{record_at};
ghost use Rattle.model.specs.ranges.RangePrefix.{PivotLcp};
ghost use Rattle.model.specs.tables.Tables.{edge_fits};
ghost use Rattle.model.specs.calls.Refusals.{answer};
ghost use Rattle.model.specs.calls.TableCalls.{not_edge_count, edges_read, edges_stand, table_causes};

use model::{EdgeKind, RECORD_SIZE, Refusal};
pub use pivot_checks::check_pivots;
use pivot_checks::not_pivot_count;

// Whether edges aren't one fewer than pivots.
#[tactic(auto, using(crate::proofs::Rules::not_edge_count))]
fn not_edge_count(pivots: &[u8], edges: &[u8]) -> bool
    ensures { result ≡ not_edge_count pivots.now edges.now }
{
    pivots.len() < RECORD_SIZE || pivots.len() - RECORD_SIZE != edges.len()
}

// Whether each record is an edge's or "no edge".
#[tactic(auto, using(crate::proofs::Rules::edges_read))]
fn edges_read(edges: &[u8]) -> bool
    ensures { result ≡ edges_read (records edges.now) }
{
    let count = edges.len() / RECORD_SIZE;
    for i in 0..count {
        if !records::holds_edge(records::record_at(edges, i)) {
            return false;
        }
    }
    true
}

// Cause 2 of the edges or of another argument.
fn misread(edges: &[u8], wrong: bool) -> bool
    ensures { result ≡ (wrong || not (edges_read (records edges.now))) }
{
    wrong || !edges_read(edges)
}

// Whether an edge may stand between two pivots: where there is one, the range's prefix isn't empty.
#[tactic(auto, using(crate::proofs::Rules::edge_fits))]
fn edge_fits(left: &[u8], right: &[u8], edge: &[u8]) -> bool
    ensures { result ≡ edge_fits (PivotLcp (element left.now) (element right.now)) (edge_of edge.now) }
{
    match records::edge_kind(edge) {
        EdgeKind::Prefix(_) => range_prefix::has_range_prefix(left, right),
        EdgeKind::Absent => true,
    }
}

// Whether the edge of slot i may stand there.
fn slot_fits(pivots: &[u8], edges: &[u8], i: usize) -> bool
    requires { i < length edges.now / record_size }
    ensures { result ≡ edge_fits (PivotLcp (element (record_at pivots.now i)) (element (record_at pivots.now (i + 1)))) (edge_of (record_at edges.now i)) }
{
    let left = records::record_at(pivots, i);
    let right = records::record_at(pivots, i + 1);
    edge_fits(left, right, records::record_at(edges, i))
}

// WFEdges of what the records stand for.
#[tactic(auto, using(crate::proofs::Rules::edges_fit))]
fn edges_fit(pivots: &[u8], edges: &[u8]) -> bool
    ensures { result ≡ edges_stand pivots.now edges.now }
{
    let slots = edges.len() / RECORD_SIZE;
    if pivots.len() / RECORD_SIZE != slots + 1 {
        return false;
    }
    for i in 0..slots {
        if !slot_fits(pivots, edges, i) {
            return false;
        }
    }
    true
}

// Causes 1 to 4 of pivots and edges; else the count of pivots. The caller says whether another argument has cause 1, or cause 2.
// No record is read before the counts are right, so that a refusal with 1 costs the same at any length.
#[tactic(auto, using(crate::proofs::Rules::check_table))]
pub fn check_table(pivots: &[u8], edges: &[u8], shape: bool, wrong: bool) -> Result<usize, Refusal>
    ensures { result ≡ answer (table_causes shape wrong pivots.now edges.now) (length pivots.now / record_size) }
{
    if shape || not_edge_count(pivots, edges) || not_pivot_count(pivots) {
        return Err(Refusal::Shape);
    }
    let bad = misread(edges, wrong);
    let n = check_pivots(pivots, false, bad)?;
    if !edges_fit(pivots, edges) {
        return Err(Refusal::EmptyPrefix);
    }
    Ok(n)
}
