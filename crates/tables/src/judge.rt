// What the sizes and the rules of rows answer: codes 1 to 5 in their order.
ghost use Rattle.std.specs.Prelude.{◌≡◌};
ghost use Rattle.tables.specs.Rules.{Sizes};
ghost use Rattle.tables.specs.Says.{rows_say, history_says};

use super::label::NOW;
use super::lent::Tables;
use super::rows::{EdgeRow, NodeRow, RefRow, Rows};
use super::rules::{first_bad_node, first_bad_row};
use super::sizes::judge_sizes;
use answers::{Answer, PASSED, Refusal};

// Codes 2 to 5.
#[tactic(auto, unfolding(crate::specs::Says::rows_say))]
fn judge_rows(tables: &Tables<'_>) -> Answer
    requires { Sizes tables.now }
    ensures { result ≡ rows_say tables.now }
{
    let start = tables.start;
    if start == NOW {
        return Err(Refusal::Start);
    }
    let nodes: Rows<'_, NodeRow> = Rows::of(&tables.nodes);
    if let Some(row) = first_bad_node(&nodes) {
        return Err(Refusal::Node(row as u32));
    }
    let edges: Rows<'_, EdgeRow> = Rows::of(&tables.edges);
    if let Some(row) = first_bad_row(start, &nodes, &edges) {
        return Err(Refusal::Edge(row as u32));
    }
    let refs: Rows<'_, RefRow> = Rows::of(&tables.refs);
    if let Some(row) = first_bad_row(start, &nodes, &refs) {
        return Err(Refusal::Reference(row as u32));
    }
    Ok(PASSED)
}

// Codes 1 to 5 of three tables, each with its count of rows.
#[tactic(auto, unfolding(crate::specs::Says::history_says))]
pub fn judge_history(tables: &Tables<'_>) -> Answer
    ensures { result ≡ history_says tables.now }
{
    judge_sizes(tables)?;
    judge_rows(tables)
}
