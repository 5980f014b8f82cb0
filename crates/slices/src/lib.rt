// The walk over the slices of a record, under a prepared table.
// walks.rt has the walk and its steps.
#![tactic(auto)]

pub mod walks;

// A slice: skipped whole, after so many bytes taken; or of a known row, with its bit 2, whether it is sliced, and the start and end of its data.
#[derive(Clone, Copy)]
pub enum Opening {
    Skip(usize),
    Known {
        row: usize,
        optionals: bool,
        sliced: bool,
        start: usize,
        end: usize,
    },
}

// First known type, format, rows, optionals skipped, slices skipped, the end; or a refusal's number and place.
#[derive(Clone, Copy)]
pub enum Walk {
    Done(usize, usize, usize, usize, usize, usize),
    Stop(usize, usize),
}
