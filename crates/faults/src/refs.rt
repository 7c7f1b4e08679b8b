// One pass over the references at an instant: LATE, DANGLING and DOUBLE.
ghost use Rattle.std.specs.Prelude.{◌+◌, ◌≤◌, length};
ghost use Rattle.tables.specs.Tables.{ref_at};
ghost use Rattle.tables.specs.Rules.{most_nodes};
ghost use Rattle.faults.specs.Leaves.{Referring};
ghost use Rattle.faults.specs.Refs.{Found, Finding, Leasts};

use super::leaves::{is_absent, nearer};
use tables::joins::Join;
use tables::rows::{RefRow, Rows};
use tables::sizes::MOST_NODES;

// The smallest place of each kind, where there is one.
#[derive(Clone, Copy)]
pub struct RefFaults {
    pub late: Option<usize>,
    pub dangling: Option<usize>,
    pub double: Option<usize>,
}

// Row j, after the rows before it. `pointing` flags the attributes from which one of these is in force.
fn take_ref(
    refs: &Rows<'_, RefRow>,
    t: u32,
    up: &[u32],
    j: usize,
    found: RefFaults,
    pointing: &mut [bool],
) -> RefFaults
    requires { Finding (ref_at refs.now.numbers) refs.now.count t up.now j found pointing.old }
    ensures { Found (ref_at refs.now.numbers) refs.now.count t up.now (j + 1) result pointing.new }
{
    let row = refs.row(j);
    if row.in_force(t) {
        let attribute = row.attribute as usize;
        let target = row.target as usize;
        let again = pointing[attribute];
        pointing[attribute] = true;
        return RefFaults {
            late: nearer(found.late, is_absent(up, attribute), j),
            dangling: nearer(found.dangling, is_absent(up, target), j),
            double: nearer(found.double, again, attribute),
        };
    }
    found
}

// All rows.
pub fn take_refs(refs: &Rows<'_, RefRow>, t: u32, up: &[u32]) -> RefFaults
    requires { Referring refs.now.count (ref_at refs.now.numbers) (length up.now) × (length up.now ≤ most_nodes) }
    ensures { Leasts (ref_at refs.now.numbers) refs.now.count t up.now result }
{
    // No heap: as many as there can be.
    let mut pointing = [false; MOST_NODES];
    let mut found = RefFaults {
        late: None,
        dangling: None,
        double: None,
    };
    for j in 0..refs.len() {
        found = take_ref(refs, t, up, j, found, &mut pointing);
    }
    found
}
