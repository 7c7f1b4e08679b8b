// Write text. The bytes are counted before any is written.
ghost use Rattle.std.specs.Prelude.{◌≡◌, ◌≤◌, length};
ghost use Rattle.ground.specs.Stores.{Put};
ghost use Rattle.ground.specs.Lists.{joined};
ghost use Rattle.text.specs.Forms.{head_lines, row_lines};
ghost use Rattle.text.specs.Sizes.{Measured, TablesFit, RowsFit, head_bytes, row_bytes, most_head, most_row_bytes};
ghost use Rattle.text.specs.Answers.{counts_of, Written};

use super::forms::{Counts, EDGE_LINE, EDITION, NODE_LINE, REF_LINE};
use answers::{Answer, Outcome, Refusal};
use lines::write::{lines_len, one_len, write_lines, write_one};
use tables::lent::Tables;
use tables::sizes::judge_sizes;

// What the first five lines say.
fn counts(tables: &Tables<'_>) -> Counts
    requires { TablesFit tables.now }
    ensures { result ≡ counts_of tables.now }
{
    Counts {
        start: tables.start,
        nodes: tables.nodes.len() as u32,
        edges: tables.edges.len() as u32,
        refs: tables.refs.len() as u32,
    }
}

// How many bytes the first five lines have: a list of them would be no plainer, as in `read_head`.
fn head_len(c: Counts) -> usize
    ensures { Measured (head_bytes c) most_head result }
{
    let a = one_len(b"edition=", EDITION);
    let b = one_len(b"start=", c.start);
    let n = one_len(b"nodes=", c.nodes);
    let m = one_len(b"edges=", c.edges);
    let k = one_len(b"refs=", c.refs);
    a + b + n + m + k
}

// How many bytes the rows have.
fn rows_len(tables: &Tables<'_>) -> usize
    requires { TablesFit tables.now }
    ensures { Measured (row_bytes tables.now) most_row_bytes result }
{
    let n = lines_len(&NODE_LINE, &tables.nodes);
    let m = lines_len(&EDGE_LINE, &tables.edges);
    let k = lines_len(&REF_LINE, &tables.refs);
    n + m + k
}

// Puts the first five lines at the front, one by one as in `read_head`.
fn write_head(out: &mut [u8], c: Counts) -> usize
    requires { head_bytes c ≤ length out.old }
    ensures { Put out.old 0 (joined (head_lines c)) out.new result }
{
    let a = write_one(out, 0, b"edition=", EDITION);
    let b = write_one(out, a, b"start=", c.start);
    let n = write_one(out, b, b"nodes=", c.nodes);
    let m = write_one(out, n, b"edges=", c.edges);
    write_one(out, m, b"refs=", c.refs)
}

// Puts the rows at place at.
fn write_rows(out: &mut [u8], at: usize, tables: &Tables<'_>) -> usize
    requires { RowsFit tables.now at out.old }
    ensures { Put out.old at (joined (row_lines tables.now)) out.new result }
{
    let n = write_lines(out, at, &NODE_LINE, &tables.nodes);
    let m = write_lines(out, n, &EDGE_LINE, &tables.edges);
    write_lines(out, m, &REF_LINE, &tables.refs)
}

pub fn write_text(tables: &Tables<'_>, out: &mut [u8]) -> Answer
    ensures { Written tables.now out.old result out.new }
{
    judge_sizes(tables)?;
    let c = counts(tables);
    let bytes = head_len(c) + rows_len(tables);
    let place = bytes as u32;
    if out.len() < bytes {
        return Err(Refusal::TextRoom(place));
    }
    let at = write_head(out, c);
    write_rows(out, at, tables);
    let done = Outcome { instant: 0, place };
    Ok(done)
}
