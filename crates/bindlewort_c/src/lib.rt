// The public calls for C, as include/bindlewort.h declares them: each is the call of that name in bindlewort, and makes
// its promise, clause for clause. A slice comes from C as a pointer and a length.
#![tactic(auto)]

ghost use Rattle.std.specs.Prelude.{[]};
ghost use Rattle.verdict.specs.Checked.{Checked};
ghost use Rattle.snapshot.specs.Snapshot.{Snapshot};
ghost use Rattle.repair.specs.Repaired.{Repaired};
ghost use Rattle.text.specs.Answers.{Written};
ghost use Rattle.bindlewort.specs.Given.{slices, Told, Given, Leaves, Reads};

use bindlewort::{Answered, Reading};

#[unsafe(no_mangle)]
pub extern "C" fn bw_check(start: u32, nodes: &[u32], edges: &[u32], refs: &[u32]) -> Answered
    ensures { Given Told
        (Checked (slices start nodes.now edges.now refs.now)) result }
{
    bindlewort::bw_check(start, nodes, edges, refs)
}

#[unsafe(no_mangle)]
pub extern "C" fn bw_snapshot(
    start: u32,
    nodes: &[u32],
    edges: &[u32],
    refs: &[u32],
    t: u32,
    out: &mut [u32],
) -> Answered
    ensures { Leaves (Snapshot
        (slices start nodes.now edges.now refs.now) t
        out.old) result out.new }
{
    bindlewort::bw_snapshot(start, nodes, edges, refs, t, out)
}

#[unsafe(no_mangle)]
pub extern "C" fn bw_repair(start: u32, nodes: &[u32], edges: &mut [u32]) -> Answered
    ensures { Leaves (Repaired (slices start nodes.now edges.old [])) result
        edges.new }
{
    bindlewort::bw_repair(start, nodes, edges)
}

#[unsafe(no_mangle)]
pub extern "C" fn bw_write_text(
    start: u32,
    nodes: &[u32],
    edges: &[u32],
    refs: &[u32],
    out: &mut [u8],
) -> Answered
    ensures { Leaves (Written
        (slices start nodes.now edges.now refs.now)
        out.old) result out.new }
{
    bindlewort::bw_write_text(start, nodes, edges, refs, out)
}

#[unsafe(no_mangle)]
pub extern "C" fn bw_read_text(
    text: &[u8],
    nodes: &mut [u32],
    edges: &mut [u32],
    refs: &mut [u32],
) -> Reading
    ensures { Reads text.now nodes.old edges.old refs.old result
        nodes.new edges.new refs.new }
{
    bindlewort::bw_read_text(text, nodes, edges, refs)
}
