// The walk: a node's row, then the subtree of each of its children.
ghost use Rattle.std.specs.Prelude.{◌≡◌, ◌≤◌, length};
ghost use Rattle.ground.specs.Lists.{front};
ghost use Rattle.snapshot.specs.Snapshot.{shown_width};
ghost use Rattle.snapshot.specs.Walk.{row_numbers};
ghost use Rattle.snapshot.specs.Lists.{tree_by, Walkable, Walked};

use std::marker::Model;

pub const ROW_WIDTH: usize = 3;

// The first child, the next sibling and the referent of each of so many nodes. A number that is no node's says in a
// list that there is none, as NO_NODE does in the rows that C reads: a slot has 4 bytes, and an Option<u32> has 8. The
// lists are apart, and not one of structs, since `list_referents` and `link` promise what they fill each by itself.
#[derive(Drop)]
pub struct Tree<'a> {
    pub first: &'a [u32],
    pub next: &'a [u32],
    pub referents: &'a [u32],
    pub count: u32,
}

impl<'a> Model for Tree<'a> {
    ghost use Rattle.snapshot.specs.Lists.{Tree, tree, Grown};

    ghost Value = { Tree };

    ghost view = { λ t. tree t.first.now t.next.now t.referents.now t.count };

    ghost invariant = { λ t. Grown (tree t.first.now t.next.now t.referents.now t.count) };
}

// A row at the front of out.
pub fn put_row(out: &mut [u32], node: u32, parent: u32, referent: u32)
    requires { shown_width ≤ length out.old }
    ensures { out.new ≡ front (row_numbers node parent referent) out.old }
{
    out[0] = node;
    out[1] = parent;
    out[2] = referent;
}

impl<'a> Tree<'a> {
    // The subtree of a node fills the front of out, and the rest of out is lent on to the walk of each child. `left`
    // counts the nodes not yet on the chain, and falls. Answers the number of rows.
    pub fn walk(&self, node: u32, parent: u32, left: usize, out: &mut [u32]) -> usize
        requires { Walkable self.now node parent left out.old }
        ensures { Walked (tree_by self.now left parent node) out.old result out.new }
    {
        if left == 0 {
            return 0;
        }
        put_row(out, node, parent, self.referents[node as usize]);
        let mut rows: usize = 1;
        let mut child = self.first[node as usize];
        while child < self.count {
            let at = rows * ROW_WIDTH;
            rows += self.walk(child, node, left - 1, &mut out[at..]);
            child = self.next[child as usize];
        }
        rows
    }
}
