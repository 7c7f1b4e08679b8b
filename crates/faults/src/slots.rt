// One pass over the rows at an instant: each node's slot holds the parent of the row into it that is in force.
ghost use Rattle.std.specs.Prelude.{◌≡◌, ◌<◌, length};
ghost use Rattle.tables.specs.Tables.{edge_at};
ghost use Rattle.faults.specs.Slots.{Slots, BlankSlots, slots_with};

use tables::joins::Join;
use tables::rows::{EdgeRow, NO_NODE, Rows};

// A slot where several rows into the node are in force; NO_NODE stands where none is. Slots are numbers, as in the
// lists that `ready` and `show` are lent, and a number has 4 bytes: an Option of it would have 8, and the slots lie on
// the stack.
pub const MANY: u32 = 4294967294;

// A row's parent goes into its child's slot, or MANY where the slot is taken.
fn take_row(edge: EdgeRow, t: u32, up: &mut [u32])
    requires { edge.child < length up.old }
    ensures { up.new ≡ slots_with edge t up.old }
{
    if edge.in_force(t) {
        let slot = &mut up[edge.child as usize];
        *slot = if *slot == NO_NODE { edge.parent } else { MANY };
    }
}

// All rows, from slots that are all NO_NODE: asked for here alone, so that a type would be no plainer.
pub fn take_rows(edges: &Rows<'_, EdgeRow>, t: u32, up: &mut [u32])
    requires { BlankSlots edges.now.count (edge_at edges.now.numbers) t up.old }
    ensures { Slots (edge_at edges.now.numbers) t edges.now.count up.new }
{
    for i in 0..edges.len() {
        take_row(edges.row(i), t, up);
    }
}
