// The converter: a compact record to the sliced one with the same members and bytes. It asks nothing of its input.
// planning.rt judges what a walk over the message found, slice.rt puts the slices: the data of each stay as they are, and the rows of its owner, which the walk has listed, say where they end.
#![tactic(auto)]

pub mod planning;
pub mod slice;

ghost use Rattle.std.specs.Prelude.{◌≡◌, ◌*◌, ◌≤◌, min, length};
ghost use Rattle.encoding.specs.Table.{members};
ghost use Rattle.encoding.specs.Write.{output, writing_of};
ghost use Rattle.convert.specs.Convert.{converting};

use encoding::Writing;

// What is to be put: the first known type, the rows, the bytes needed; or a refusal's number and place.
#[derive(Clone, Copy)]
pub enum Plan {
    Fits(usize, usize, usize),
    Stopped(usize, usize),
}

// The place after the rows of an owner, and the next row.
#[derive(Clone, Copy)]
pub struct Ended {
    pub end: usize,
    pub row: usize,
}

// After a slice: the next row, and the ends of the slice in the message and in the output.
#[derive(Clone, Copy)]
pub struct Moved {
    pub row: usize,
    pub at: usize,
    pub to: usize,
}

// Converts by a walk into a list that holds a row for each member of the table, or 1,024.
fn convert_by(table: &[u8], top: usize, message: &[u8], list: &mut [u8], out: &mut [u8]) -> Writing
    requires { 12 * min (members table.now) 1024 ≤ length list.old }
    ensures value { result ≡ writing_of (converting table.now top message.now (length out.old)) }
    ensures out_after { out.new ≡ output (converting table.now top message.now (length out.old)) out.old }
{
    let mut shapes = [10u8; 256];
    let w = reading::walk(table, top, message, false, 0, &mut shapes, list);
    let begin = table::types_at(table);
    let p = planning::plan(table, begin, w, message.len(), out.len());
    match p {
        Plan::Stopped(c, q) => Writing::Rejected(reading::low(c), reading::low(q)),
        Plan::Fits(t, n, needed) => {
            let at = slice::first_at(table, begin, top);
            slice::put_record(table, begin, message, list, n, t, at, needed, out);
            Writing::Written(reading::low(needed))
        }
    }
}

// The converter: the sliced form of an accepted compact record with nothing skipped at the output's start; bytes of the output after it stay, and on a refusal all of them.
// A list of 32, 128 or 1,024 rows is used: a longer list takes longer to clear.
// Wrong and ruled out: a converter that loses the last bit; one that leaves out the type ID of a later slice; one that converts a record of which something was skipped.
pub fn convert(table: &[u8], top: u32, message: &[u8], out: &mut [u8]) -> Writing
    ensures value { result ≡ writing_of (converting table.now top message.now (length out.old)) }
    ensures out_after { out.new ≡ output (converting table.now top message.now (length out.old)) out.old }
{
    let n = table::members(table);
    if n <= 32 {
        let mut few = [0u8; 384];
        return convert_by(table, top as usize, message, &mut few, out);
    }
    if n <= 128 {
        let mut more = [0u8; 1536];
        return convert_by(table, top as usize, message, &mut more, out);
    }
    let mut most = [0u8; 12288];
    convert_by(table, top as usize, message, &mut most, out)
}

// The converter's answer for an output of `room` bytes; no output is touched.
// Wrong and ruled out: an answer that is the same for every room; 22 at the room instead of the bytes needed.
pub fn converted(table: &[u8], top: u32, message: &[u8], room: usize) -> Writing
    ensures { result ≡ writing_of (converting table.now top message.now room) }
{
    let mut shapes = [10u8; 256];
    let mut none = [0u8; 12];
    let w = reading::walk(
        table,
        top as usize,
        message,
        false,
        0,
        &mut shapes,
        &mut none,
    );
    let begin = table::types_at(table);
    let p = planning::plan(table, begin, w, message.len(), room);
    match p {
        Plan::Stopped(c, q) => Writing::Rejected(reading::low(c), reading::low(q)),
        Plan::Fits(t, n, needed) => Writing::Written(reading::low(needed)),
    }
}
