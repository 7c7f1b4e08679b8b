// The rows of tables, and how a row is read and stored: with specs/Tables.antt and specs/Rows.antt all that knows how
// many numbers a row has.
ghost use Rattle.std.specs.Prelude.{◌≡◌, ◌+◌, ◌<◌, List, ℕ};
ghost use Rattle.tables.specs.Labels.{instant_of, label_of};
ghost use Rattle.tables.specs.Tables.{cell_at, table};
ghost use Rattle.tables.specs.Rows.{from_at, to_at, set_end, set_edge_of, HasRows, HasEdges};

use super::label::{End, Label};
use super::lent::Table;
use std::marker::{Model, PhantomData};

pub const NODE_WIDTH: usize = 3;

pub const EDGE_WIDTH: usize = 4;

pub const REF_WIDTH: usize = 4;

// The number that stands for no node: C finds it in the rows of a snapshot.
pub const NO_NODE: u32 = 4294967295;

#[derive(Clone, Copy, Debug, PartialEq, Eq)]
pub struct NodeRow {
    pub kind: u32,
    pub label: u32,
    pub value: u32,
}

#[derive(Clone, Copy, Debug, PartialEq, Eq)]
pub struct EdgeRow {
    pub parent: u32,
    pub child: u32,
    pub from: u32,
    pub to: u32,
}

#[derive(Clone, Copy, Debug, PartialEq, Eq)]
pub struct RefRow {
    pub attribute: u32,
    pub target: u32,
    pub from: u32,
    pub to: u32,
}

// A row of a table: how many numbers it has, and what they mean.
pub trait Row: Copy {
    ghost WIDTH: { ℕ };

    ghost row_at: { List ℕ → ℕ → Self };

    const WIDTH: usize;

    // The condition stands here, since rows are read from a slice that is written too, which no `Rows` can hold.
    fn read(numbers: &[u32], i: usize) -> Self
        requires { HasRows WIDTH numbers.now (i + 1) }
        ensures { result ≡ row_at numbers.now i };

    ghost some: { 0 < WIDTH };
}

impl Row for NodeRow {
    ghost use Rattle.std.specs.Prelude.{◌≡◌, ◌+◌, ◌<◌};
    ghost use Rattle.std.proofs.Common.{rules};
    ghost use Rattle.tables.specs.Tables.{node_width, node_at};

    ghost WIDTH = { node_width };

    ghost row_at = { node_at };

    ghost some = { Prim.search rules };

    const WIDTH: usize = NODE_WIDTH;

    #[tactic(auto, unfolding(crate::specs::Tables::node_at))]
    fn read(numbers: &[u32], i: usize) -> NodeRow {
        let at = i * NODE_WIDTH;
        NodeRow {
            kind: numbers[at],
            label: numbers[at + 1],
            value: numbers[at + 2],
        }
    }
}

impl Row for EdgeRow {
    ghost use Rattle.std.specs.Prelude.{◌≡◌, ◌+◌, ◌<◌};
    ghost use Rattle.std.proofs.Common.{rules};
    ghost use Rattle.tables.specs.Tables.{edge_width, edge_at};

    ghost WIDTH = { edge_width };

    ghost row_at = { edge_at };

    ghost some = { Prim.search rules };

    const WIDTH: usize = EDGE_WIDTH;

    #[tactic(auto, unfolding(crate::specs::Tables::edge_at))]
    fn read(numbers: &[u32], i: usize) -> EdgeRow {
        let at = i * EDGE_WIDTH;
        EdgeRow {
            parent: numbers[at],
            child: numbers[at + 1],
            from: numbers[at + 2],
            to: numbers[at + 3],
        }
    }
}

impl Row for RefRow {
    ghost use Rattle.std.specs.Prelude.{◌≡◌, ◌+◌, ◌<◌};
    ghost use Rattle.std.proofs.Common.{rules};
    ghost use Rattle.tables.specs.Tables.{ref_width, ref_at};

    ghost WIDTH = { ref_width };

    ghost row_at = { ref_at };

    ghost some = { Prim.search rules };

    const WIDTH: usize = REF_WIDTH;

    #[tactic(auto, unfolding(crate::specs::Tables::ref_at))]
    fn read(numbers: &[u32], i: usize) -> RefRow {
        let at = i * REF_WIDTH;
        RefRow {
            attribute: numbers[at],
            target: numbers[at + 1],
            from: numbers[at + 2],
            to: numbers[at + 3],
        }
    }
}

// Number k of row i, where rows have a width that only the caller knows: there is no type of such a row.
pub fn cell_at(rows: &[u32], width: usize, i: usize, k: usize) -> u32
    requires { (k < width) × HasRows width rows.now (i + 1) }
    ensures { result ≡ cell_at width rows.now i k }
{
    rows[i * width + k]
}

// Such a row of either kind ends with its label.
pub fn label_at(rows: &[u32], width: usize, i: usize) -> Label
    requires { (1 < width) × HasRows width rows.now (i + 1) }
    ensures { result ≡ label_of (from_at width rows.now i) (to_at width rows.now i) }
{
    Label::of(
        cell_at(rows, width, i, width - 2),
        cell_at(rows, width, i, width - 1),
    )
}

// A table that holds so many whole rows, or more. Rows are gone over by number, `for i in 0..rows.len()`: a row's
// number is what answers name, and an iterator of its own would be one more contract, and make no loop plainer.
#[derive(Drop)]
pub struct Rows<'a, R: Row> {
    numbers: &'a [u32],
    count: usize,
    row: PhantomData<R>,
}

impl<'a, R: Row> Model for Rows<'a, R> {
    ghost use Rattle.tables.specs.Numbered.{Numbered};
    ghost use Rattle.tables.specs.Rows.{HasRows};

    ghost Value = { Numbered };

    ghost view = { λ t. record { numbers = t.numbers.now; count = t.count } };

    ghost invariant = { λ t. HasRows R.WIDTH t.numbers.now t.count };
}

impl<'a, R: Row> Rows<'a, R> {
    // Here and in `of` the invariant comes in, so that it must be asked.
    pub fn new(numbers: &'a [u32], count: usize) -> Rows<'a, R>
        requires { HasRows R.WIDTH numbers.now count }
        ensures { result ≡ table numbers.now count }
    {
        Rows {
            numbers,
            count,
            row: PhantomData,
        }
    }

    pub fn of(table: &Table<'a>) -> Rows<'a, R>
        requires { HasRows R.WIDTH table.now.numbers table.now.count }
        ensures { result ≡ table.now }
    {
        Rows::new(table.numbers, table.count)
    }

    pub fn len(&self) -> usize
        ensures { result ≡ self.now.count }
    {
        self.count
    }

    pub fn row(&self, i: usize) -> R
        requires { i < self.now.count }
        ensures { result ≡ R.row_at self.now.numbers i }
    {
        R::read(self.numbers, i)
    }
}

// Stores a whole row. What is written is lent as a slice: a `Rows` lends its numbers to be read alone.
pub fn set_edge(edges: &mut [u32], i: usize, edge: EdgeRow)
    requires { HasEdges edges.old (i + 1) }
    ensures { edges.new ≡ set_edge_of edges.old i edge }
{
    let row = i * EDGE_WIDTH;
    edges[row] = edge.parent;
    edges[row + 1] = edge.child;
    edges[row + 2] = edge.from;
    edges[row + 3] = edge.to;
}

// Stores a row's end, in a slice for the same reason.
pub fn set_edge_end(edges: &mut [u32], i: usize, end: End)
    requires { HasEdges edges.old (i + 1) }
    ensures { edges.new ≡ set_end edges.old i (instant_of end) }
{
    edges[i * EDGE_WIDTH + 3] = end.instant();
}
