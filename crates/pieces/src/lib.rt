// One row of the writer: finds its member, checks its bytes, measures its piece or puts it. Each function equals its definition on any table, rows, buffer and output.
// rows.rt measures the part of the buffer that a row gives, judge.rt finds the member, checks the bytes and measures, piece.rt puts.
#![tactic(auto)]

pub mod judge;
pub mod piece;
pub mod rows;

// An optional member of an owner: the row of its type, and its tag.
#[derive(Clone, Copy)]
pub struct Wanted {
    pub of: usize,
    pub tag: usize,
}

// A row as an optional member of an owner: the end of its bytes, and its tag.
#[derive(Clone, Copy)]
pub struct Placed {
    pub end: usize,
    pub tag: usize,
}
