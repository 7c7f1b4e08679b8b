// What the text says before its rows, and the lines of the rows: reader and writer share both.
use lines::form::{Form, Line};
use tables::label::NOW;
use tables::rows::{EDGE_WIDTH, NODE_WIDTH, REF_WIDTH};

pub const EDITION: u32 = 1;

// The start, and how many rows each table has.
#[derive(Clone, Copy, Debug, PartialEq, Eq)]
pub struct Counts {
    pub start: u32,
    pub nodes: u32,
    pub edges: u32,
    pub refs: u32,
}

// A constant's value may call no function in Rattle, so each form is written out.
pub const NODE_LINE: Line<'static> = Line {
    key: b"node=",
    form: Form {
        columns: NODE_WIDTH,
        hidden: 0,
        ended: false,
        least: 0,
        most: NOW,
    },
};

pub const EDGE_LINE: Line<'static> = Line {
    key: b"edge=",
    form: Form {
        columns: EDGE_WIDTH,
        hidden: 0,
        ended: true,
        least: 0,
        most: NOW,
    },
};

pub const REF_LINE: Line<'static> = Line {
    key: b"ref=",
    form: Form {
        columns: REF_WIDTH,
        hidden: 0,
        ended: true,
        least: 0,
        most: NOW,
    },
};
