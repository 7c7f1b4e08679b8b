// The repair of m rows without a tie, in place. A row's new end asks for the ends that the rows into its child had
// before, so all m new ends are found before the first is written. To find one takes a look at each of the m rows.
ghost use Rattle.std.specs.Prelude.{◌≡◌, cond, ◌+◌, ◌≤◌, ◌<◌, ltb, length, Some};
ghost use Rattle.tables.specs.Tables.{edge_at};
ghost use Rattle.tables.specs.Rows.{HasEdges};
ghost use Rattle.tables.specs.Rules.{most_edges};
ghost use Rattle.repair.specs.Ends.{sooner, new_end_of};
ghost use Rattle.repair.specs.Steps.{Bounded, nth, Found, EndsStored};

use tables::joins::Join;
use tables::label::End;
use tables::rows::{EdgeRow, Row, Rows, set_edge_end};
use tables::sizes::MOST_EDGES;

// What the end of a row depends on: among the rows into its child the next start, if there is one, and the largest end.
#[derive(Clone, Copy)]
struct Bounds {
    next: Option<u32>,
    last: u32,
}

// The next start after s, where it is `next` without the start `from`.
fn next_after(s: u32, from: u32, next: Option<u32>) -> Option<u32>
    ensures { result ≡ cond (ltb s from) (Some (sooner from next)) next }
{
    if s < from {
        Some(next.map_or(from, |n| n.min(from)))
    } else {
        next
    }
}

// The next start after s and the largest end among the rows into c.
#[tactic(auto, unfolding(crate::specs::Ends::next_start, crate::specs::Ends::last_end))]
fn find_bounds(rows: &Rows<'_, EdgeRow>, c: u32, s: u32) -> Bounds
    ensures { Bounded (edge_at rows.now.numbers) rows.now.count c s result.next result.last }
{
    let mut next = None;
    let mut last: u32 = 0;
    for i in 0..rows.len() {
        let row = rows.row(i);
        if row.child == c {
            let label = row.label();
            next = next_after(s, label.from, next);
            last = last.max(label.end.instant());
        }
    }
    Bounds { next, last }
}

// Row i's end after repair: one instant before the next start, or the last end where there is none.
#[tactic(auto, unfolding(crate::specs::Ends::new_end_of))]
fn new_end(rows: &Rows<'_, EdgeRow>, i: usize) -> u32
    requires { i < rows.now.count }
    ensures { result ≡ new_end_of (edge_at rows.now.numbers) rows.now.count i }
{
    let row = rows.row(i);
    let bounds = find_bounds(rows, row.child, row.from);
    match bounds.next {
        Some(next) => next - 1,
        None => bounds.last,
    }
}

// Finds the ends of the rows after repair.
fn find_ends(rows: &Rows<'_, EdgeRow>, ends: &mut [u32])
    requires { length ends.old ≡ rows.now.count }
    ensures { Found (new_end_of (edge_at rows.now.numbers) rows.now.count) rows.now.count ends.new }
{
    for (i, end) in ends.iter_mut().enumerate() {
        *end = new_end(rows, i);
    }
}

// Gives as many rows these ends, and says how many of them had another. The rows are written, and so a slice.
fn write_ends(edges: &mut [u32], ends: &[u32]) -> usize
    requires { HasEdges edges.old (length ends.now) }
    ensures { EndsStored edges.old (nth ends.now) (length ends.now) result edges.new }
{
    let mut changed = 0;
    for (i, &to) in ends.iter().enumerate() {
        let end = EdgeRow::read(edges, i).label().end;
        if end.instant() != to {
            changed += 1;
        }
        set_edge_end(edges, i, End::from(to));
    }
    changed
}

// Repairs the m rows, and says how many of them got another end. They are written: a slice with its count.
pub fn mend(edges: &mut [u32], m: usize) -> usize
    requires { HasEdges edges.old m × (m ≤ most_edges) }
    ensures { EndsStored edges.old (new_end_of (edge_at edges.old) m) m result
        edges.new }
{
    // No heap: as many as there can be.
    let mut new_ends = [0u32; MOST_EDGES];
    let ends = &mut new_ends[..m];
    find_ends(&Rows::new(edges, m), ends);
    write_ends(edges, ends)
}
