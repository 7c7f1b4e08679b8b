// The fault at an instant that an answer names: the smallest code, and there the smallest place. A leaf for each kind,
// and one for the three kinds that references have, asked in the order of kinds.
ghost use Rattle.std.specs.Prelude.{◌≡◌};
ghost use Rattle.answers.specs.Answers.{Faulty};
ghost use Rattle.answers.specs.Kinds.{after_gap_of};
ghost use Rattle.answers.specs.Refusals.{fault};
ghost use Rattle.tables.specs.Tables.{edge_at};
ghost use Rattle.tables.specs.Says.{named};
ghost use Rattle.history.specs.Taken.{held_in};
ghost use Rattle.history.specs.Computed.{say, faults_say};
ghost use Rattle.faults.specs.Slots.{Fresh};
ghost use Rattle.faults.specs.Spans.{Bounds};
ghost use Rattle.faults.specs.Judged.{Placed, Clear, Shows};

use super::leaves::{first_gap, first_outside, first_overlap};
use super::refs::take_refs;
use super::slots::take_rows;
use super::spans::Span;
use super::walk::first_back;
use answers::{Answer, Fault, Kind, PASSED, Refusal};
use history::ruled::History;
use tables::rows::NO_NODE;
use tables::sizes::MOST_NODES;

// One line of the table: there is no fault of a kind, or it is at this place.
fn none_at(t: u32, kind: Kind, place: Option<usize>) -> Answer
    requires { Placed place }
    ensures { result ≡ named (λ p. Faulty t (fault kind p)) place }
{
    match place {
        Some(p) => Err(Refusal::Faulty(t, Fault::of(kind, p as u32))),
        None => Ok(PASSED),
    }
}

// The kinds after GAP, where no node has two rows into it.
fn after_gap(history: &History<'_>, t: u32, up: &[u32]) -> Answer
    requires { Clear (held_in history.now) t up.now }
    ensures { result ≡ say (held_in history.now) t after_gap_of }
{
    none_at(t, Kind::Outside, first_outside(up))?;
    none_at(t, Kind::Cycle, first_back(up))?;
    let found = take_refs(&history.refs, t, up);
    none_at(t, Kind::Late, found.late)?;
    none_at(t, Kind::Dangling, found.dangling)?;
    none_at(t, Kind::Double, found.double)
}

// All kinds. spans are the bounds of the nodes' rows: two functions ask for them, and a type would be no plainer.
pub fn judge(history: &History<'_>, spans: &[Span], t: u32) -> Answer
    requires { Bounds history.now.edges.count (edge_at history.now.edges.numbers) history.now.nodes spans.now }
    ensures { result ≡ faults_say (held_in history.now) t }
{
    // No heap: as many as there can be.
    let mut slots = [NO_NODE; MOST_NODES];
    take_rows(&history.edges, t, &mut slots);
    let up = &slots[..history.nodes];
    none_at(t, Kind::Overlap, first_overlap(up))?;
    none_at(t, Kind::Gap, first_gap(up, spans, t))?;
    after_gap(history, t, up)
}

// All kinds but GAP, for a snapshot. It leaves the slots at t.
pub fn judge_shown(history: &History<'_>, t: u32, up: &mut [u32]) -> Answer
    requires { Fresh history.now.nodes up.old }
    ensures { Shows (held_in history.now) t up.new result }
{
    take_rows(&history.edges, t, up);
    let shown = &up[..history.nodes];
    none_at(t, Kind::Overlap, first_overlap(shown))?;
    after_gap(history, t, shown)
}
