// The call repair: the rows into each child made to follow one another, from its first start to its last end.
#![tactic(auto)]

mod mend;
mod tie;

ghost use Rattle.std.specs.Prelude.{[], ◌≤◌};
ghost use Rattle.tables.specs.Tables.{lent};
ghost use Rattle.tables.specs.Rows.{HasEdges};
ghost use Rattle.tables.specs.Rules.{most_edges};
ghost use Rattle.repair.specs.Says.{Settled};
ghost use Rattle.repair.specs.Repaired.{Repaired};

use answers::{Answer, Outcome, Refusal};
use mend::mend;
use tables::judge::judge_history;
use tables::lent::{Table, Tables};
use tables::rows::{EdgeRow, Rows};
use tie::first_tie;

// Code 22, or the repair of m rows that obey the rules. They are written: a slice with its count, as at `repair`.
#[tactic(auto, unfolding(crate::specs::Says::settle_says, crate::specs::Says::settle_leaves))]
fn settle(edges: &mut [u32], m: usize) -> Answer
    requires { HasEdges edges.old m × (m ≤ most_edges) }
    ensures { Settled edges.old m result edges.new }
{
    let rows: Rows<'_, EdgeRow> = Rows::new(edges, m);
    if let Some(row) = first_tie(&rows) {
        let edge = rows.row(row);
        return Err(Refusal::Tie(edge.from, row as u32));
    }
    let place = mend(edges, m) as u32;
    Ok(Outcome { instant: 0, place })
}

// Codes 1 to 4 and 22 in their order; else only ends change, and the place is the count of rows whose end does. There
// are no references, so the rules give codes 1 to 4 alone. The rows are written, so they are lent as a slice with their
// count beside it: a Table lends its numbers to be read alone.
pub fn repair(start: u32, nodes: Table<'_>, edges: &mut [u32], m: usize) -> Answer
    ensures { Repaired (lent start nodes.entry.numbers nodes.entry.count edges.old m [] 0) result
        edges.new }
{
    let refs = Table {
        numbers: &[],
        count: 0,
    };
    let tables = Tables {
        start,
        nodes,
        edges: Table {
            numbers: edges,
            count: m,
        },
        refs,
    };
    judge_history(&tables)?;
    settle(edges, m)
}
