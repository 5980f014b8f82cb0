// The walk over the pairs of type ID and data of an exception in encoding 1.0, under a prepared table.
// walks.rt has the walk and its steps.
#![tactic(auto)]

pub mod walks;

// A pair up to its data: skipped whole, after so many bytes taken; or of a known row, with the start and end of its data.
#[derive(Clone, Copy)]
pub enum Opening {
    Skip(usize),
    Data {
        row: usize,
        start: usize,
        end: usize,
    },
}

// A pair: skipped, with the bytes taken; or of a known row, with the rows there are then and the bytes taken.
#[derive(Clone, Copy)]
pub enum Turn {
    Passed(usize),
    Known {
        row: usize,
        count: usize,
        bytes: usize,
    },
}
