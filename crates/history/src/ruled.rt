// A history whose rows fit, as those of tables that obey the rules do.
ghost use Rattle.history.specs.Faults.{history_of};
ghost use Rattle.history.specs.Ruled.{Ruled};

use tables::rows::{EdgeRow, RefRow, Rows};

#[derive(Drop)]
pub struct History<'a> {
    pub start: u32,
    // How many nodes there are.
    pub nodes: usize,
    pub edges: Rows<'a, EdgeRow>,
    pub refs: Rows<'a, RefRow>,
    pub ghost ruled: { Ruled (history_of start nodes edges.numbers edges.count refs.numbers refs.count) },
}
