// CYCLE: walking up from node to parent by the slots. Asked only where no node has two rows into it, so that there is
// one way up. Each asks for at most most_nodes slots, since the marks are an array of so many: a type around the slice
// would say it no plainer.
ghost use Rattle.std.specs.Prelude.{◌<◌, ◌≤◌, length};
ghost use Rattle.ground.specs.Searches.{Finds};
ghost use Rattle.tables.specs.Rules.{most_nodes};
ghost use Rattle.faults.specs.Walks.{Back, Means};
ghost use Rattle.faults.specs.Marks.{Done, Marked, NoBack, SomeBack};

use tables::sizes::MOST_NODES;

// Whether the walk up from c comes back to c.
fn comes_back(up: &[u32], c: usize) -> bool
    requires { (length up.now ≤ most_nodes) × (c < length up.now) }
    ensures { Means result (Back up.now (length up.now) c) (Back up.now (length up.now) c → ⊥) }
{
    let mut x = up[c] as usize;
    for step in 0..up.len() {
        if x == c {
            return true;
        }
        if up.len() <= x {
            return false;
        }
        x = up[x] as usize;
    }
    false
}

// The smallest node that comes back to itself: a walk from each.
fn find_back(up: &[u32]) -> Option<usize>
    requires { length up.now ≤ most_nodes }
    ensures { Finds (Back up.now (length up.now)) (length up.now) result }
{
    (0..up.len()).find(|&c| comes_back(up, c))
}

// Marks the nodes from start upwards. True where the walk leaves the nodes or meets an earlier walk, false where it
// meets itself. 0 is no mark: an Option would have 8 bytes for 4, of fixed memory, and leave both tests as they are.
fn walk(up: &[u32], start: usize, mark: &mut [u32]) -> bool
    requires in_bounds { (length up.now ≤ length mark.old) × (length up.now ≤ most_nodes) × (start < length up.now) }
    requires done { Done up.now (length up.now) start mark.old }
    ensures { Means result (Marked up.now (length up.now) start mark.old mark.new) (SomeBack up.now (length up.now)) }
{
    let stamp = start as u32 + 1;
    let mut x = start;
    while x < up.len() {
        let seen = mark[x];
        if seen == stamp {
            return false;
        }
        if seen != 0 {
            return true;
        }
        mark[x] = stamp;
        x = up[x] as usize;
    }
    true
}

// Whether no node comes back to itself. Each node is passed once.
fn settled(up: &[u32]) -> bool
    requires { length up.now ≤ most_nodes }
    ensures { Means result (NoBack up.now (length up.now)) (SomeBack up.now (length up.now)) }
{
    // No heap: as many as there can be.
    let mut mark = [0u32; MOST_NODES];
    for start in 0..up.len() {
        if !walk(up, start, &mut mark) {
            return false;
        }
    }
    true
}

// The smallest node that comes back to itself: the search walks from every node, so it is made only where there is one.
pub fn first_back(up: &[u32]) -> Option<usize>
    requires { length up.now ≤ most_nodes }
    ensures { Finds (Back up.now (length up.now)) (length up.now) result }
{
    if settled(up) { None } else { find_back(up) }
}
