// The leaves of the judge: the smallest place of a line of the table of faults, where there is one. The leaves of
// references are in refs.rt, and that of CYCLE in walk.rt.
ghost use Rattle.std.specs.Prelude.{◌≡◌, ◌<◌, ◌≤◌, eqb, length};
ghost use Rattle.std.specs.List.{position};
ghost use Rattle.ground.specs.Searches.{Finds};
ghost use Rattle.ground.specs.Searches.{found, nearer};
ghost use Rattle.faults.specs.Slots.{Many};
ghost use Rattle.faults.specs.Leaves.{is_absent_of, is_gap_of, is_part_of, Parts};

use super::slots::MANY;
use super::spans::Span;
use tables::rows::NO_NODE;

// OVERLAP: the smallest node whose slot is MANY.
pub fn first_overlap(up: &[u32]) -> Option<usize>
    ensures { result ≡ position (λ slot. eqb slot Many) up.now }
{
    up.iter().position(|slot| *slot == MANY)
}

pub fn is_absent(up: &[u32], c: usize) -> bool
    requires { c < length up.now }
    ensures { result ≡ is_absent_of up.now c }
{
    (c != 0) & (up[c] == NO_NODE)
}

fn is_gap(up: &[u32], spans: &[Span], t: u32, c: usize) -> bool
    requires { (c < length up.now) × (c < length spans.now) }
    ensures { result ≡ is_gap_of up.now spans.now t c }
{
    is_absent(up, c) & ((spans[c].first < t) & (t < spans[c].last))
}

// GAP: the smallest node that is absent, and has rows that start before t and rows that end after it.
pub fn first_gap(up: &[u32], spans: &[Span], t: u32) -> Option<usize>
    requires { length up.now ≤ length spans.now }
    ensures { result ≡ found (is_gap_of up.now spans.now t) (length up.now) }
{
    (0..up.len()).find(|&c| is_gap(up, spans, t, c))
}

// The smaller of best and x, where the test passes.
pub(crate) fn nearer(best: Option<usize>, passes: bool, x: usize) -> Option<usize>
    ensures { result ≡ nearer best passes x }
{
    if passes {
        Some(best.unwrap_or(x).min(x))
    } else {
        best
    }
}

// Whether what stands in a slot is a node, and absent.
fn is_part(up: &[u32], node: usize) -> bool
    ensures { result ≡ is_part_of up.now node }
{
    node < up.len() && is_absent(up, node)
}

// OUTSIDE: the smallest node that is absent and is the slot of another.
#[tactic(auto, using(crate::proofs::PartLaws::parts_next))]
pub fn first_outside(up: &[u32]) -> Option<usize>
    ensures { Finds (Parts up.now (length up.now)) (length up.now) result }
{
    let mut best = None;
    for slot in up {
        let node = *slot as usize;
        best = nearer(best, is_part(up, node), node);
    }
    best
}
