// The sizes of tables, and the rule that judges a lent count of rows (code 1).
ghost use Rattle.std.specs.Prelude.{◌≡◌, length};
ghost use Rattle.tables.specs.Tests.{size_rule_of};
ghost use Rattle.tables.specs.Says.{sizes_say};

use super::lent::{Table, Tables};
use super::rows::{EdgeRow, NodeRow, RefRow, Row};
use answers::{Answer, PASSED, Refusal};

// Buffers are arrays of the most that there can be: the library takes its memory from the stack, and no heap.
pub const LEAST_NODES: usize = 1;

pub const MOST_NODES: usize = 1024;

pub const MOST_EDGES: usize = 2048;

pub const MOST_REFS: usize = 1024;

// A table's numbers are as many whole rows as its count says, at least `least` and at most `most` of them.
#[tactic(auto, unfolding(crate::specs::Tests::size_rule_of))]
fn size_rule<R: Row>(table: &Table<'_>, least: usize, most: usize) -> bool
    ensures { result ≡ size_rule_of R.WIDTH least most table.now.count (length table.now.numbers) }
{
    let numbers = table.numbers.len();
    let count = table.count;
    (numbers % R::WIDTH == 0) & (numbers / R::WIDTH == count) & ((least <= count) & (count <= most))
}

// Code 1 of three tables, each with its count of rows.
#[tactic(auto, unfolding(crate::specs::Says::sizes_say))]
pub fn judge_sizes(tables: &Tables<'_>) -> Answer
    ensures { result ≡ sizes_say tables.now.nodes tables.now.edges tables.now.refs }
{
    if !size_rule::<NodeRow>(&tables.nodes, LEAST_NODES, MOST_NODES) {
        return Err(Refusal::Size(0));
    }
    if !size_rule::<EdgeRow>(&tables.edges, 0, MOST_EDGES) {
        return Err(Refusal::Size(1));
    }
    if !size_rule::<RefRow>(&tables.refs, 0, MOST_REFS) {
        return Err(Refusal::Size(2));
    }
    Ok(PASSED)
}
