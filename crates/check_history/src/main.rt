// Document 01's program `check`: reads a text from standard input, and prints the code, the instant and the place of
// read text if that refused, else of check.
#![tactic(auto)]

ghost use Rattle.std.specs.Prelude.{◌≡◌, ◌+◌, ◌≤◌, length, take, IfOk, OnErr};
ghost use Rattle.ground.specs.Stores.{Put};
ghost use Rattle.check_history.specs.Says.{Says, Prints, most_input, most_output, printed, Reported};

use answers::{Answer, Answered, Refusal};
use lines::write::write_one;
use std::io;
use std::io::{Print, Read, Stdin};
use tables::lent::{Table, Tables};
use tables::rows::{EDGE_WIDTH, NODE_WIDTH, REF_WIDTH};
use tables::sizes::{MOST_EDGES, MOST_NODES, MOST_REFS};
use text::read::read_text;
use verdict::check;

const MOST_INPUT: usize = 32768;

// Three lines, each of at most 96 bytes.
const MOST_OUTPUT: usize = 288;

// What the text answers. The tables have room for every history within the sizes.
fn answer(text: &[u8]) -> Answer
    ensures { Says text.now result }
{
    // No heap: as many as there can be.
    let mut nodes = [0u32; MOST_NODES * NODE_WIDTH];
    let mut edges = [0u32; MOST_EDGES * EDGE_WIDTH];
    let mut refs = [0u32; MOST_REFS * REF_WIDTH];
    let counts = read_text(text, &mut nodes, &mut edges, &mut refs)?;
    let n = counts.nodes as usize;
    let m = counts.edges as usize;
    let k = counts.refs as usize;
    check(&Tables {
        start: counts.start,
        nodes: Table {
            numbers: &nodes[..n * NODE_WIDTH],
            count: n,
        },
        edges: Table {
            numbers: &edges[..m * EDGE_WIDTH],
            count: m,
        },
        refs: Table {
            numbers: &refs[..k * REF_WIDTH],
            count: k,
        },
    })
}

// What the input answers. A text that is longer than may be read is not looked at.
fn answer_input(input: &[u8]) -> Answer
    ensures { Prints input.now result }
{
    if input.len() <= MOST_INPUT {
        answer(input)
    } else {
        Err(Refusal::Text(MOST_INPUT as u32))
    }
}

// Puts an answer's three lines at the front.
fn write_answer(out: &mut [u8], said: Answer) -> usize
    requires { length out.old ≡ most_output }
    ensures { Put out.old 0 (printed said) out.new result × (result ≤ most_output) }
{
    let told = Answered::from(said);
    let a = write_one(out, 0, b"code=", told.code);
    let b = write_one(out, a, b"instant=", told.instant);
    write_one(out, b, b"place=", told.place)
}

// What is printed of the first n bytes of a buffer: one byte more than may be read tells a longer input. The buffer is
// lent whole, with n beside it: that it has room for that byte is asked here, and nowhere else.
fn report(buffer: &[u8], n: usize, out: &mut [u8]) -> usize
    requires { (length buffer.now ≡ most_input + 1) × (n ≤ length buffer.now) × (length out.old ≡ most_output) }
    ensures { Reported (take n buffer.now) out.old out.new result }
{
    let said = answer_input(&buffer[..n]);
    write_answer(out, said)
}

// Reads until the buffer is full or the input ends, and returns how many bytes were put at the front. What stands in
// place of a loop here, std's `read_exact`, refuses an input that is shorter.
fn read_full(mut input: Stdin, buffer: &mut [u8]) -> io::Result<usize>
    ensures ok { IfOk result (λ n. n ≤ length buffer.new) }
    ensures err { OnErr result (length buffer.new ≡ length buffer.old) }
{
    let mut done = 0;
    while done < buffer.len() {
        let n = input.read(&mut buffer[done..])?;
        if n == 0 {
            break;
        }
        done += n;
    }
    Ok(done)
}

fn main(rt: HostRuntime) -> io::Result<()> {
    // No heap: one byte more than may be read, and three lines.
    let mut buffer = [0u8; MOST_INPUT + 1];
    let n = read_full(rt.stdin(), &mut buffer)?;
    let mut out = [0u8; MOST_OUTPUT];
    let k = report(&buffer, n, &mut out);
    rt.write_all(&out[..k])
}
