// The rules of rows: a test for each kind of row, and a search for the smallest row that breaks its rule.
ghost use Rattle.std.specs.Prelude.{◌≡◌, ◌+◌, ◌<◌};
ghost use Rattle.ground.specs.Searches.{found};
ghost use Rattle.tables.specs.Labels.{instant_of};
ghost use Rattle.tables.specs.Tables.{node_at};
ghost use Rattle.tables.specs.Rows.{HasNodes, HasRows};
ghost use Rattle.tables.specs.Tests.{node_rule_of, label_rule_of, join_rule, bad_node_of, bad_row_of};

use super::joins::Join;
use super::kinds::NodeKind;
use super::label::{Label, NOW};
use super::rows::{EdgeRow, NodeRow, RefRow, Rows, cell_at};

const MOST_LABEL: u32 = 65535;

fn node_rule(i: usize, node: NodeRow) -> bool
    ensures { result ≡ node_rule_of i node }
{
    match NodeKind::try_from(node.kind) {
        Ok(NodeKind::Root) => (i == 0)
            & (1 <= node.label)
            & (node.label <= MOST_LABEL)
            & (node.value == 0),
        Ok(NodeKind::Value) => (i != 0) & (node.label == 0),
        Ok(_) => (i != 0) & (1 <= node.label) & (node.label <= MOST_LABEL) & (node.value == 0),
        Err(_) => false,
    }
}

fn label_rule(start: u32, label: Label) -> bool
    ensures { result ≡ label_rule_of start label.from (instant_of label.end) }
{
    let from = label.from;
    let end = label.end;
    (start <= from) & (from <= end.instant()) & (from != NOW)
}

// Whether a row may join the two nodes that it joins, for as long as its label says.
fn join_rule<R: Join>(start: u32, nodes: &Rows<'_, NodeRow>, row: R) -> bool
    ensures { result ≡ join_rule R.refers start nodes.now.count (node_at nodes.now.numbers) (R.first row) (R.second row)
        (R.from row) (R.to row) }
{
    let (first, second) = row.sides();
    let a = first as usize;
    let b = second as usize;
    if nodes.len() <= a {
        return false;
    }
    if nodes.len() <= b {
        return false;
    }
    let kinds = (
        NodeKind::try_from(nodes.row(a).kind),
        NodeKind::try_from(nodes.row(b).kind),
    );
    match kinds {
        (Ok(a), Ok(b)) => R::may_join(a, b) & label_rule(start, row.label()),
        _ => false,
    }
}

// The smallest node row that breaks its rule.
pub fn first_bad_node(nodes: &Rows<'_, NodeRow>) -> Option<usize>
    ensures { result ≡ found (bad_node_of (node_at nodes.now.numbers)) nodes.now.count }
{
    (0..nodes.len()).find(|&i| !node_rule(i, nodes.row(i)))
}

// The smallest row that breaks its rule, of a table whose rows hold or refer.
pub fn first_bad_row<R: Join>(
    start: u32,
    nodes: &Rows<'_, NodeRow>,
    rows: &Rows<'_, R>,
) -> Option<usize>
    ensures { result ≡ found (bad_row_of R.refers start nodes.now.count (node_at nodes.now.numbers) R.WIDTH
        rows.now.numbers) rows.now.count }
{
    (0..rows.len()).find(|&i| !join_rule(start, nodes, rows.row(i)))
}

// Whether row i breaks its rule, where rows have `width` numbers and refer, or else hold.
#[tactic(auto, unfolding(crate::specs::Tests::bad_row_of))]
fn bad_row(
    refers: bool,
    start: u32,
    nodes: &Rows<'_, NodeRow>,
    rows: &[u32],
    width: usize,
    i: usize,
) -> bool
    requires { (1 < width) × HasRows width rows.now (i + 1) }
    ensures { result ≡ bad_row_of refers start nodes.now.count (node_at nodes.now.numbers) width rows.now i }
{
    let first = cell_at(rows, width, i, 0);
    let second = cell_at(rows, width, i, 1);
    let from = cell_at(rows, width, i, width - 2);
    let to = cell_at(rows, width, i, width - 1);
    if refers {
        !join_rule(
            start,
            nodes,
            RefRow {
                attribute: first,
                target: second,
                from,
                to,
            },
        )
    } else {
        !join_rule(
            start,
            nodes,
            EdgeRow {
                parent: first,
                child: second,
                from,
                to,
            },
        )
    }
}

// The same search in a table whose rows have a width that only the caller knows.
pub fn first_bad_row_of_width(
    refers: bool,
    start: u32,
    nodes: &[u32],
    n: usize,
    rows: &[u32],
    width: usize,
    m: usize,
) -> Option<usize>
    requires { HasNodes nodes.now n × (1 < width) × HasRows width rows.now m }
    ensures { result ≡ found (bad_row_of refers start n (node_at nodes.now) width rows.now) m }
{
    let nodes = Rows::new(nodes, n);
    (0..m).find(|&i| bad_row(refers, start, &nodes, rows, width, i))
}
