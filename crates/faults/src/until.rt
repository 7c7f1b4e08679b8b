// How long nothing changes: the last instant before the next change.
ghost use Rattle.tables.specs.Labels.{instant_of};
ghost use Rattle.tables.specs.Tables.{edge_at, ref_at};
ghost use Rattle.history.specs.Until.{Starts, Ends, Still, Calm, LargestInstant, RowsUntil};

use tables::joins::Join;
use tables::label::{Label, NOW};
use tables::rows::{EdgeRow, RefRow, Rows};

fn start_until(from: u32, t: u32) -> u32
    ensures { LargestInstant (λ u. Starts t from u → ⊥) result }
{
    if t < from { from - 1 } else { NOW }
}

// Nothing is added to an end: the instant past it need not be one.
fn end_until(to: u32, t: u32) -> u32
    ensures { LargestInstant (λ u. Ends t to u → ⊥) result }
{
    if t <= to { to } else { NOW }
}

fn label_until(label: Label, t: u32) -> u32
    ensures { LargestInstant (Still t label.from (instant_of label.end)) result }
{
    start_until(label.from, t).min(end_until(label.end.instant(), t))
}

// Of the rows of one table.
fn rows_until<R: Join>(rows: &Rows<'_, R>, t: u32) -> u32
    ensures { LargestInstant (Calm t rows.now.count (λ i. R.from (R.row_at rows.now.numbers i))
        (λ i. R.to (R.row_at rows.now.numbers i))) result }
{
    let mut best = NOW;
    for i in 0..rows.len() {
        best = best.min(label_until(rows.row(i).label(), t));
    }
    best
}

// The largest instant such that no row starts after t up to it, and none ends from t on before it.
pub fn until(edges: &Rows<'_, EdgeRow>, refs: &Rows<'_, RefRow>, t: u32) -> u32
    ensures { RowsUntil edges.now.count (edge_at edges.now.numbers) refs.now.count (ref_at refs.now.numbers) t result }
{
    rows_until(edges, t).min(rows_until(refs, t))
}
