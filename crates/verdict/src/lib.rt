// The call check: codes 1 to 5, then the earliest fault, found by a sweep over the change instants.
#![tactic(auto)]

ghost use Rattle.tables.specs.Tables.{edge_at};
ghost use Rattle.history.specs.Faults.{Verdict};
ghost use Rattle.history.specs.Taken.{held_in};
ghost use Rattle.faults.specs.Spans.{Bounds};
ghost use Rattle.verdict.specs.Checked.{Checked};
ghost use Rattle.verdict.specs.Swept.{Swept};

use answers::{Answer, PASSED};
use faults::judge::judge;
use faults::spans::{Span, UNSEEN, note_rows};
use faults::until::until;
use history::ruled::History;
use tables::label::NOW;
use tables::lent::Tables;
use tables::sizes::MOST_NODES;

// The sweep from an instant before which there is no fault. Between two change instants nothing changes, so it looks at
// these alone.
fn sweep_from(history: &History<'_>, spans: &[Span], from: u32) -> Answer
    requires bounds { Bounds history.now.edges.count (edge_at history.now.edges.numbers) history.now.nodes spans.now }
    requires swept { Swept (held_in history.now) from }
    ensures { Verdict (held_in history.now) result }
{
    let mut t = from;
    loop {
        judge(history, spans, t)?;
        let calm = until(&history.edges, &history.refs, t);
        if calm == NOW {
            return Ok(PASSED);
        }
        t = calm + 1;
    }
}

// The verdict on tables that obey the rules.
fn sweep(history: &History<'_>) -> Answer
    ensures { Verdict (held_in history.now) result }
{
    // No heap: as many as there can be.
    let mut spans = [UNSEEN; MOST_NODES];
    note_rows(&history.edges, &mut spans);
    let from = history.start;
    sweep_from(history, &spans, from)
}

pub fn check(tables: &Tables<'_>) -> Answer
    ensures { Checked tables.now result }
{
    let history = History::of(tables)?;
    sweep(&history)
}
