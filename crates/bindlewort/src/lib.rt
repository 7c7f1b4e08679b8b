// The public calls. None has a `requires`, and each promise determines the answer and every number and byte then held
// by what was lent, on refusals too (proofs/Demands.antt). What is lent by `&` cannot change. C calls them by the
// exports of bindlewort_c.
#![tactic(auto)]

ghost use Rattle.std.specs.Prelude.{◌≡◌, [], ◌/◌, length};
ghost use Rattle.verdict.specs.Checked.{Checked};
ghost use Rattle.snapshot.specs.Snapshot.{Snapshot};
ghost use Rattle.repair.specs.Repaired.{Repaired};
ghost use Rattle.text.specs.Answers.{Written};
ghost use Rattle.tables.specs.Tables.{table};
ghost use Rattle.bindlewort.specs.Given.{slices, Told, Retold, Given, Leaves, Reads};

pub use answers::Answered;
use answers::{PASSED, Refusal};
use tables::lent::{Table, Tables};
use tables::rows::{EDGE_WIDTH, EdgeRow, NodeRow, RefRow, Row};
use text::forms::Counts;

// What read text gives: its answer, the start and how many rows each table has.
#[repr(C)]
#[derive(Clone, Copy, Debug, PartialEq, Eq)]
pub struct Reading {
    pub answer: Answered,
    pub start: u32,
    pub nodes: u32,
    pub edges: u32,
    pub refs: u32,
}

impl From<Result<Counts, Refusal>> for Reading {
    ghost from_gives = { Retold };

    fn from(read: Result<Counts, Refusal>) -> Reading {
        match read {
            Ok(counts) => Reading {
                answer: Answered::from(Ok(PASSED)),
                start: counts.start,
                nodes: counts.nodes,
                edges: counts.edges,
                refs: counts.refs,
            },
            Err(refusal) => Reading {
                answer: Answered::from(Err(refusal)),
                start: 0,
                nodes: 0,
                edges: 0,
                refs: 0,
            },
        }
    }
}

// A slice as a table: a count is the slice's length by the row's width, rounded down.
fn rows_of<R: Row>(numbers: &[u32]) -> Table<'_>
    ensures { result ≡ table numbers.now (length numbers.now / R.WIDTH) }
{
    Table {
        numbers,
        count: numbers.len() / R::WIDTH,
    }
}

fn tables<'a>(start: u32, nodes: &'a [u32], edges: &'a [u32], refs: &'a [u32]) -> Tables<'a>
    ensures { result ≡ slices start nodes.now edges.now refs.now }
{
    Tables {
        start,
        nodes: rows_of::<NodeRow>(nodes),
        edges: rows_of::<EdgeRow>(edges),
        refs: rows_of::<RefRow>(refs),
    }
}

// Check: codes 1 to 5, else the earliest instant with a fault, there the smallest code, and there the smallest place.
pub fn bw_check(start: u32, nodes: &[u32], edges: &[u32], refs: &[u32]) -> Answered
    ensures { Given Told
        (Checked (slices start nodes.now edges.now refs.now)) result }
{
    Answered::from(verdict::check(&tables(start, nodes, edges, refs)))
}

// Snapshot: the root and what it contains at t, a row for each node.
pub fn bw_snapshot(
    start: u32,
    nodes: &[u32],
    edges: &[u32],
    refs: &[u32],
    t: u32,
    out: &mut [u32],
) -> Answered
    ensures { Leaves (Snapshot
        (slices start nodes.now edges.now refs.now) t
        out.old) result out.new }
{
    Answered::from(snapshot::snapshot(&tables(start, nodes, edges, refs), t, out))
}

// Repair: each child gets, from its first start to its last end, the parent of the row that started last.
pub fn bw_repair(start: u32, nodes: &[u32], edges: &mut [u32]) -> Answered
    ensures { Leaves (Repaired (slices start nodes.now edges.old [])) result
        edges.new }
{
    let m = edges.len() / EDGE_WIDTH;
    Answered::from(repair::repair(start, rows_of::<NodeRow>(nodes), edges, m))
}

// Write text: the text of the tables, whatever their numbers.
pub fn bw_write_text(
    start: u32,
    nodes: &[u32],
    edges: &[u32],
    refs: &[u32],
    out: &mut [u8],
) -> Answered
    ensures { Leaves (Written
        (slices start nodes.now edges.now refs.now)
        out.old) result out.new }
{
    Answered::from(text::write::write_text(&tables(start, nodes, edges, refs), out))
}

// Read text: the tables that the text holds, at the front of those that are lent.
pub fn bw_read_text(text: &[u8], nodes: &mut [u32], edges: &mut [u32], refs: &mut [u32]) -> Reading
    ensures { Reads text.now nodes.old edges.old refs.old result
        nodes.new edges.new refs.new }
{
    Reading::from(text::read::read_text(text, nodes, edges, refs))
}
