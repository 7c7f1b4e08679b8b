// The lists that the walk goes by: the referent, the first child and the next sibling of each node.
ghost use Rattle.std.specs.Prelude.{◌≡◌, ◌+◌, ◌<◌, ◌≤◌, ltb, length};
ghost use Rattle.std.specs.List.{count_by};
ghost use Rattle.tables.specs.Tables.{no_node, ref_at};
ghost use Rattle.snapshot.specs.Says.{referent_at};
ghost use Rattle.snapshot.specs.Lists.{Lists, Listable, put_first_of, links, link_all};

use tables::joins::Join;
use tables::rows::{NO_NODE, RefRow, Rows};

// Stores a value at a place, unless a number of a node stands there.
#[tactic(auto, unfolding(crate::specs::Lists::put_first_of))]
pub fn put_first(list: &mut [u32], place: usize, value: u32)
    requires { place < length list.old }
    ensures { list.new ≡ put_first_of list.old place value }
{
    if list[place] == NO_NODE {
        list[place] = value;
    }
}

// The referent of each node.
pub fn list_referents(refs: &Rows<'_, RefRow>, t: u32, referents: &mut [u32])
    requires { Listable refs.now referents.old }
    ensures { Lists (referent_at refs.now.count (ref_at refs.now.numbers) t) referents.new }
{
    for i in 0..refs.len() {
        let reference = refs.row(i);
        if reference.in_force(t) {
            put_first(referents, reference.attribute as usize, reference.target);
        }
    }
}

// The rows of a snapshot: the root's, and one for each node with a parent.
pub fn count_rows(parents: &[u32]) -> usize
    ensures { result ≡ 1 + count_by (λ p. ltb p (length parents.now)) parents.now }
{
    let n = parents.len();
    1 + parents.iter().filter(|p| (**p as usize) < n).count()
}

// Links the children of each node, the last first, so that they rise from the first child on.
#[tactic(auto, using(crate::proofs::LinkLaws::link_turn), unfolding(crate::specs::Lists::link_from))]
pub fn link(parents: &[u32], first: &mut [u32], next: &mut [u32])
    requires { (length parents.now ≤ no_node) × (length parents.now ≤ length first.old)
        × (length parents.now ≤ length next.old) }
    ensures { links first.new next.new ≡ link_all parents.now (links first.old next.old) }
{
    let n = parents.len();
    for child in (0..n).rev() {
        let parent = parents[child] as usize;
        if parent < n {
            next[child] = first[parent];
            first[parent] = child as u32;
        }
    }
}
