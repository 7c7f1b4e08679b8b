// The call snapshot: what a history contains at an instant.
#![tactic(auto)]

ghost use Rattle.std.specs.Prelude.{◌≡◌};
ghost use Rattle.ground.specs.Lists.{front};
ghost use Rattle.tables.specs.Rules.{most_nodes};
ghost use Rattle.faults.specs.Slots.{Fresh};
ghost use Rattle.snapshot.specs.Snapshot.{shown_numbers, Snapshot};
ghost use Rattle.snapshot.specs.Readied.{Readied};
ghost use Rattle.snapshot.specs.Lists.{rows_by, Showable};

pub mod lists;
pub mod walk;

use answers::{Answer, Outcome, Refusal};
use faults::judge::judge_shown;
use history::ruled::History;
use lists::{count_rows, link, list_referents};
use tables::lent::Tables;
use tables::rows::{NO_NODE, RefRow, Rows};
use tables::sizes::MOST_NODES;
use walk::{ROW_WIDTH, Tree};

// The rows of the root and of the nodes to which a list gives a parent.
pub fn show(parents: &[u32], refs: &Rows<'_, RefRow>, t: u32, out: &mut [u32])
    requires { Showable parents.now refs.now t out.old }
    ensures { out.new ≡ front (shown_numbers (rows_by parents.now refs.now t)) out.old }
{
    let n = parents.len();
    // No heap: as many as there can be.
    let mut referents = [NO_NODE; MOST_NODES];
    list_referents(refs, t, &mut referents);
    let mut first = [NO_NODE; MOST_NODES];
    let mut next = [NO_NODE; MOST_NODES];
    link(parents, &mut first, &mut next);
    let tree = Tree {
        first: &first,
        next: &next,
        referents: &referents,
        count: n as u32,
    };
    // In the rows, which C reads, the root's parent is NO_NODE.
    tree.walk(0, NO_NODE, n, out);
}

// The history, if what it contains at t can be shown, or the refusal: each of a snapshot but ROOM. Where nothing is
// refused, up holds the parent of each node at t.
pub fn ready<'a>(tables: &Tables<'a>, t: u32, up: &mut [u32]) -> Result<History<'a>, Refusal>
    requires { Fresh most_nodes up.old }
    ensures { Readied tables.now t result up.new }
{
    let history = History::of(tables)?;
    if t < history.start {
        return Err(Refusal::Early(t));
    }
    judge_shown(&history, t, up)?;
    Ok(history)
}

// What a history contains at t, as rows at the front of out: the root, and the subtree of each of its children.
pub fn snapshot(tables: &Tables<'_>, t: u32, out: &mut [u32]) -> Answer
    ensures { Snapshot tables.now t out.old result out.new }
{
    // No heap: as many as there can be.
    let mut up = [NO_NODE; MOST_NODES];
    let history = ready(tables, t, &mut up)?;
    let parents = &up[..history.nodes];
    let rows = count_rows(parents);
    let place = rows as u32;
    if out.len() < rows * ROW_WIDTH {
        return Err(Refusal::Room(t, place));
    }
    show(parents, &history.refs, t, out);
    Ok(Outcome { instant: t, place })
}
