// Read text. All of the text is checked, and the room for it, before anything is written.
ghost use Rattle.std.specs.Prelude.{◌≡◌, ◌*◌, Ok, MatchResult};
ghost use Rattle.tables.specs.Tables.{node_width, edge_width, ref_width};
ghost use Rattle.lines.specs.Reads.{wrong, ended_of, got_of};
ghost use Rattle.lines.specs.Plans.{plan_at};
ghost use Rattle.text.specs.Reads.{head_plan, rows_plan, head_of, whole, end_at, read_text, short_says};
ghost use Rattle.text.specs.Reads.{Scanned, Announced, Held};
ghost use Rattle.text.specs.Answers.{no_tables, Read};

use super::forms::{Counts, EDGE_LINE, EDITION, NODE_LINE, REF_LINE};
use answers::{Answer, PASSED, Refusal};
use decimals::Wrong;
use lines::read::{check_lines, fill_lines, read_one};
use tables::label::NOW;
use tables::rows::{EDGE_WIDTH, NODE_WIDTH, REF_WIDTH};
use tables::sizes::{LEAST_NODES, MOST_EDGES, MOST_NODES, MOST_REFS};

// What the first five lines say, and the place after them. They differ in key and bounds, and go into fields of their
// own: a list of them would be no plainer, here and where they are counted and written.
fn read_head(text: &[u8]) -> Result<(Counts, usize), Wrong>
    ensures { result ≡ head_of (plan_at head_plan text.now 0) }
{
    let edition = read_one(text, 0, b"edition=", EDITION, EDITION)?;
    let start = read_one(text, edition.after, b"start=", 0, NOW)?;
    let nodes = read_one(
        text,
        start.after,
        b"nodes=",
        LEAST_NODES as u32,
        MOST_NODES as u32,
    )?;
    let edges = read_one(text, nodes.after, b"edges=", 0, MOST_EDGES as u32)?;
    let refs = read_one(text, edges.after, b"refs=", 0, MOST_REFS as u32)?;
    let counts = Counts {
        start: start.value,
        nodes: nodes.value,
        edges: edges.value,
        refs: refs.value,
    };
    Ok((counts, refs.after))
}

// Whether the text ends at place at: that place.
fn check_end(text: &[u8], at: usize) -> Result<usize, Wrong>
    ensures { result ≡ end_at text.now at }
{
    if at == text.len() {
        Ok(at)
    } else {
        Err(Wrong { at })
    }
}

// Whether the rows that c announces stand from place at on, and nothing after them: the place after them.
fn check_rows(text: &[u8], at: usize, c: Counts) -> Result<usize, Wrong>
    ensures { result ≡ ended_of (whole text.now (plan_at (rows_plan c) text.now at)) }
{
    let nodes = check_lines(text, at, &NODE_LINE, c.nodes)?;
    let edges = check_lines(text, nodes, &EDGE_LINE, c.edges)?;
    let refs = check_lines(text, edges, &REF_LINE, c.refs)?;
    check_end(text, refs)
}

// The whole text: what its first five lines say, and the place after them.
fn check_text(text: &[u8]) -> Result<(Counts, usize), Wrong>
    ensures { Scanned text.now result }
{
    let (counts, at) = read_head(text)?;
    check_rows(text, at, counts)?;
    Ok((counts, at))
}

// Whether tables of so many numbers hold the rows that c announces.
#[tactic(auto, unfolding(crate::specs::Reads::short_says))]
fn judge_room(c: Counts, nodes: usize, edges: usize, refs: usize) -> Answer
    ensures { result ≡ short_says (c.nodes * node_width) (c.edges * edge_width) (c.refs * ref_width) nodes edges
        refs }
{
    if nodes < (c.nodes as usize) * NODE_WIDTH {
        return Err(Refusal::Room(0, 0));
    }
    if edges < (c.edges as usize) * EDGE_WIDTH {
        return Err(Refusal::Room(0, 1));
    }
    if refs < (c.refs as usize) * REF_WIDTH {
        return Err(Refusal::Room(0, 2));
    }
    Ok(PASSED)
}

// Puts the rows that were found right into the fronts of the tables.
fn fill_rows(
    text: &[u8],
    at: usize,
    c: Counts,
    nodes: &mut [u32],
    edges: &mut [u32],
    refs: &mut [u32],
)
    requires { Announced text.now at c nodes.old edges.old refs.old }
    ensures { Held (got_of no_tables (plan_at (rows_plan c) text.now at)) nodes.old
        edges.old refs.old nodes.new edges.new refs.new }
{
    let i = fill_lines(text, at, &NODE_LINE, c.nodes, nodes);
    let j = fill_lines(text, i, &EDGE_LINE, c.edges, edges);
    fill_lines(text, j, &REF_LINE, c.refs, refs);
}

// What read text answers: the start and how many rows each table has.
pub fn read_text(
    text: &[u8],
    nodes: &mut [u32],
    edges: &mut [u32],
    refs: &mut [u32],
) -> Result<Counts, Refusal>
    ensures { Read text.now nodes.old edges.old refs.old result
        nodes.new edges.new refs.new }
{
    let (c, at) = check_text(text).map_err(|wrong| Refusal::Text(wrong.at as u32))?;
    judge_room(c, nodes.len(), edges.len(), refs.len())?;
    fill_rows(text, at, c, nodes, edges, refs);
    Ok(c)
}
