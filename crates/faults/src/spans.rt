// One pass over the rows for all instants: each node's first start and last end.
ghost use Rattle.std.specs.Prelude.{◌≡◌, ◌<◌, length};
ghost use Rattle.tables.specs.Tables.{edge_at};
ghost use Rattle.faults.specs.Spans.{Spans, Bare, spans_with};

use tables::label::NOW;
use tables::rows::{EdgeRow, Rows};

#[derive(Clone, Copy, Debug, PartialEq, Eq)]
pub struct Span {
    pub first: u32,
    pub last: u32,
}

// Of a node that has no row yet.
pub const UNSEEN: Span = Span {
    first: NOW,
    last: 0,
};

// A row goes into its child's span.
fn note_row(edge: EdgeRow, spans: &mut [Span])
    requires { edge.child < length spans.old }
    ensures { spans.new ≡ spans_with edge spans.old }
{
    let span = &mut spans[edge.child as usize];
    span.first = span.first.min(edge.from);
    span.last = span.last.max(edge.to);
}

// All rows, from spans that no row has changed.
pub fn note_rows(edges: &Rows<'_, EdgeRow>, spans: &mut [Span])
    requires { Bare edges.now.count (edge_at edges.now.numbers) spans.old }
    ensures { Spans (edge_at edges.now.numbers) edges.now.count spans.new }
{
    for i in 0..edges.len() {
        note_row(edges.row(i), spans);
    }
}
