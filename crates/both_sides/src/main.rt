// Runs the cases of document 01's 'Both sides of the line' that are not starred, and compares what each call answers
// and leaves with what the document says. Prints a line for each case, and how many are as stated. It takes no heap:
// its tables are arrays, as long as a case needs or as tables can be.
#![tactic(auto)]

ghost use Rattle.std.specs.Prelude.{◌≡◌, true, cond, IfOk, OnErr, ◌↔◌, [], ℕ, ◌*◌, ◌≤◌, ◌<◌, length, get_or, take, replicate};
ghost use Rattle.verdict.specs.Checked.{Checked};
ghost use Rattle.snapshot.specs.Snapshot.{Snapshot};
ghost use Rattle.repair.specs.Repaired.{Repaired};
ghost use Rattle.bindlewort.specs.Given.{slices, Told, Given};
ghost use Rattle.both_sides.specs.Cases.{Counted, OfForm, CanWrite, elements};

use bindlewort::{Answered, bw_check, bw_read_text, bw_repair, bw_snapshot, bw_write_text};
use std::io;
use std::io::{Print, Stdout};
use tables::rows::{EDGE_WIDTH, NODE_WIDTH, REF_WIDTH};
use tables::sizes::{MOST_EDGES, MOST_NODES, MOST_REFS};

// The document's N.
const N: u32 = 4294967295;

// What an output holds before the call.
const U: u32 = 7;

// Whether both the answer and what the call left are as stated.
fn same(a: Answered, b: Answered, left: &[u32], right: &[u32]) -> bool
    ensures { (result ≡ true) ↔ ((a ≡ b) × (left.now ≡ right.now)) }
{
    (a == b) && (left == right)
}

// Prints an answer and whether the case is as stated. Counts it where it is.
fn report(to: Stdout, a: Answered, agrees: bool) -> io::Result<u32>
    ensures { IfOk result (λ n. n ≡ cond agrees 1 0) }
{
    print!(to; ": {} {} {}", a.code, a.instant, a.place)?;
    if agrees {
        to.write_all(b" as stated\n")?;
    } else {
        to.write_all(b" NOT as stated\n")?;
    }
    Ok(u32::from(agrees))
}

fn check_is(
    to: Stdout,
    case: &[u8],
    nodes: &[u32],
    edges: &[u32],
    stated: Answered,
) -> io::Result<u32>
    ensures { IfOk result (Counted (Given Told (Checked (slices 0 nodes.now edges.now [])) stated)) }
{
    to.write_all(case)?;
    to.write_all(b", check")?;
    let a = bw_check(0, nodes, edges, &[]);
    report(to, a, a == stated)
}

fn snapshot_is(
    to: Stdout,
    case: &[u8],
    start: u32,
    nodes: &[u32],
    edges: &[u32],
    refs: &[u32],
    t: u32,
    stated: Answered,
    left: &[u32],
) -> io::Result<u32>
    ensures { IfOk result (Counted (Given Told (λ a. Snapshot
        (slices start nodes.now edges.now refs.now)
        t (replicate 12 7) a left.now) stated)) }
{
    to.write_all(case)?;
    print!(to; ", snapshot at {t}")?;
    let mut out = [U; 12];
    let a = bw_snapshot(start, nodes, edges, refs, t, &mut out);
    report(to, a, same(a, stated, &out, left))
}

fn repair_is(
    to: Stdout,
    case: &[u8],
    nodes: &[u32],
    edges: &mut [u32],
    stated: Answered,
    left: &[u32],
) -> io::Result<u32>
    ensures ok { IfOk result (Counted (Given Told (λ a. Repaired (slices 0 nodes.now edges.old []) a
        left.now) stated)) }
    ensures err { OnErr result (length edges.new ≡ length edges.old) }
{
    to.write_all(case)?;
    to.write_all(b", repair")?;
    let a = bw_repair(0, nodes, edges);
    report(to, a, same(a, stated, edges, left))
}

// So many rows at the front of a table.
fn first_rows(table: &[u32], count: u32, width: usize) -> &[u32]
    requires { count * width ≤ length table.now }
    ensures { result.now ≡ take (count * width) table.now }
{
    let n = count as usize * width;
    &table[..n]
}

fn same_rows(table: &[u32], count: u32, width: usize, rows: &[u32]) -> bool
    requires { count * width ≤ length table.now }
    ensures { (result ≡ true) ↔ (take (count * width) table.now ≡ rows.now) }
{
    first_rows(table, count, width) == rows
}

// Reads a text, writes again what was read, and compares: a text is counted exactly if it is of the form. The tables
// have room for all that can be read.
fn read_is_written(to: Stdout, text: &[u8], out: &mut [u8]) -> io::Result<u32>
    requires { length text.now ≤ length out.old }
    ensures ok { IfOk result (Counted (OfForm text.now)) }
    ensures err { OnErr result (length out.new ≡ length out.old) }
{
    let mut nodes = [0u32; MOST_NODES * NODE_WIDTH];
    let mut edges = [0u32; MOST_EDGES * EDGE_WIDTH];
    let mut refs = [0u32; MOST_REFS * REF_WIDTH];
    let x = bw_read_text(text, &mut nodes, &mut edges, &mut refs);
    let said = x.answer;
    if said.code != 0 {
        return report(to, said, false);
    }
    let a = first_rows(&nodes, x.nodes, NODE_WIDTH);
    let b = first_rows(&edges, x.edges, EDGE_WIDTH);
    let c = first_rows(&refs, x.refs, REF_WIDTH);
    let w = bw_write_text(x.start, a, b, c, out);
    let n = w.place as usize;
    report(to, w, &out[..n] == text)
}

// Writes tables as text, reads that back, and compares: tables are counted exactly if they are within the sizes and the
// output has room for their text.
fn written_is_read(
    to: Stdout,
    start: u32,
    nodes: &[u32],
    edges: &[u32],
    refs: &[u32],
    out: &mut [u8],
) -> io::Result<u32>
    ensures ok { IfOk result (Counted (CanWrite (slices start nodes.now edges.now refs.now)
        out.old)) }
    ensures err { OnErr result (length out.new ≡ length out.old) }
{
    let mut n = [0u32; MOST_NODES * NODE_WIDTH];
    let mut e = [0u32; MOST_EDGES * EDGE_WIDTH];
    let mut f = [0u32; MOST_REFS * REF_WIDTH];
    let w = bw_write_text(start, nodes, edges, refs, out);
    if w.code != 0 {
        return report(to, w, false);
    }
    let k = w.place as usize;
    let x = bw_read_text(&out[..k], &mut n, &mut e, &mut f);
    let back = same_rows(&n, x.nodes, NODE_WIDTH, nodes)
        & same_rows(&e, x.edges, EDGE_WIDTH, edges)
        & same_rows(&f, x.refs, REF_WIDTH, refs);
    report(to, x.answer, (x.start == start) & back)
}

// "At 100: 16. At 121: the same three."
fn snapshots_of_h(to: Stdout, nodes: &[u32], edges: &[u32], refs: &[u32]) -> io::Result<u32>
    ensures { IfOk result (λ n. n ≤ 2) }
{
    let dangling = Answered::new(16, 100, 0);
    let shown = Answered::new(0, 121, 3);
    let same_three = [0, N, N, 1, 0, N, 2, 0, N, U, U, U];
    let before = snapshot_is(to, b"H", 0, nodes, edges, refs, 100, dangling, &[U; 12])?;
    let after = snapshot_is(to, b"H", 0, nodes, edges, refs, 121, shown, &same_three)?;
    Ok(before + after)
}

// [demand 2] "Tables written as text read back as the same tables, and accepted text written again is the same text."
fn texts_of_h(
    to: Stdout,
    text: &[u8],
    nodes: &[u32],
    edges: &[u32],
    refs: &[u32],
) -> io::Result<u32>
    requires { length text.now ≤ 512 }
    ensures { IfOk result (λ n. n ≤ 2) }
{
    let mut out = [0u8; 512];
    to.write_all(b"H, read and written again")?;
    let again = read_is_written(to, text, &mut out)?;
    to.write_all(b"H, written and read back")?;
    let back = written_is_read(to, 0, nodes, edges, refs, &mut out)?;
    Ok(again + back)
}

// The cases of H, whose tables are read from the document's text. "Repair of H: place 0."
fn of_h(to: Stdout) -> io::Result<u32>
    ensures { IfOk result (λ n. n ≤ 5) }
{
    let text = b"edition=1\nstart=0\nnodes=6\nedges=6\nrefs=1\n\
        node=0,1,0\nnode=1,2,0\nnode=1,2,0\nnode=1,3,0\nnode=1,4,0\nnode=4,5,0\n\
        edge=0,1,0,now\nedge=0,2,0,now\nedge=1,3,10,49\nedge=2,3,50,99\nedge=1,4,20,120\nedge=4,5,20,120\n\
        ref=5,3,20,120\n";
    let mut nodes = [0u32; 18];
    let mut edges = [0u32; 24];
    let mut refs = [0u32; 4];
    bw_read_text(text, &mut nodes, &mut edges, &mut refs);
    let mut mended = edges;
    let unchanged = Answered::new(0, 0, 0);
    let snapshots = snapshots_of_h(to, &nodes, &edges, &refs)?;
    let repair = repair_is(to, b"H", &nodes, &mut mended, unchanged, &edges)?;
    let texts = texts_of_h(to, text, &nodes, &edges, &refs)?;
    Ok(snapshots + repair + texts)
}

// "Root alone with start 7, snapshot at 6: 23. At 7: 0, one row."
fn of_the_root_alone(to: Stdout) -> io::Result<u32>
    ensures { IfOk result (λ n. n ≤ 2) }
{
    let root = [0u32, 1, 0];
    let early = Answered::new(23, 6, 0);
    let shown = Answered::new(0, 7, 1);
    let one_row = [0, N, N, U, U, U, U, U, U, U, U, U];
    let before = snapshot_is(
        to,
        b"root alone, start 7",
        7,
        &root,
        &[],
        &[],
        6,
        early,
        &[U; 12],
    )?;
    let after = snapshot_is(
        to,
        b"root alone, start 7",
        7,
        &root,
        &[],
        &[],
        7,
        shown,
        &one_row,
    )?;
    Ok(before + after)
}

// "Label [8,8] stands; [9,8] is code 4."
fn of_labels(to: Stdout) -> io::Result<u32>
    ensures { IfOk result (λ n. n ≤ 2) }
{
    let nodes = [0u32, 1, 0, 1, 1, 0];
    let stands = Answered::new(0, 0, 0);
    let broken = Answered::new(4, 0, 0);
    let one = check_is(to, b"label [8,8]", &nodes, &[0, 1, 8, 8], stands)?;
    let other = check_is(to, b"label [9,8]", &nodes, &[0, 1, 9, 8], broken)?;
    Ok(one + other)
}

fn element_number(k: usize) -> u32
    ensures { result ≡ elements k }
{
    if k == 0 {
        return 0;
    }
    if k % NODE_WIDTH == 2 { 0 } else { 1 }
}

// Fills a table with a root and elements.
fn put_elements(nodes: &mut [u32])
    ensures { (k : ℕ) → k < length nodes.old → get_or nodes.new k 0 ≡ elements k }
{
    for (i, number) in nodes.iter_mut().enumerate() {
        *number = element_number(i);
    }
}

// "1,024 nodes stand; 1,025 are code 1."
fn of_sizes(to: Stdout) -> io::Result<u32>
    ensures { IfOk result (λ n. n ≤ 2) }
{
    let mut most = [0u32; 3072];
    let mut more = [0u32; 3075];
    put_elements(&mut most);
    put_elements(&mut more);
    let stands = Answered::new(0, 0, 0);
    let out_of_size = Answered::new(1, 0, 0);
    let one = check_is(to, b"1,024 nodes", &most, &[], stands)?;
    let other = check_is(to, b"1,025 nodes", &more, &[], out_of_size)?;
    Ok(one + other)
}

fn main(rt: HostRuntime) -> io::Result<()> {
    let to = rt.stdout();
    let n = of_h(to)? + of_the_root_alone(to)? + of_labels(to)? + of_sizes(to)?;
    println!(to; "{n} of 11 cases are as stated")
}
