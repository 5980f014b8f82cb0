// The whole message from its rows. Each function equals its definition on any table, rows, buffer and output.
// One pass checks the rows and measures the message (measure.rt), a second one puts it into the output: slice.rt the rows of an owner and its slice, message.rt the slices of all owners.
// `old` says that the message is of encoding 1.0. Each function is given `begin`, where the table's type rows begin.
#![tactic(auto)]

pub mod measure;
pub mod message;
pub mod slice;

ghost use Rattle.std.specs.Prelude.{◌≡◌, ◌≤◌, ◌<◌, length};
ghost use Rattle.encoding.specs.Table.{types_at};
ghost use Rattle.encoding.specs.Write.{output};
ghost use Rattle.shapes.specs.Shapes.{shapes_of};
ghost use Rattle.writer.specs.Messages.{written, outcome_of};

use wire::Refusal;

// An owner as each pass looks it up once: its member rows are the b rows from a on, `up` is its base row + 1 or 0, its name is the `long` bytes of the table from `name` on.
#[derive(Clone, Copy)]
pub struct Owner {
    pub a: usize,
    pub b: usize,
    pub up: usize,
    pub name: usize,
    pub long: usize,
}

// The end of the bytes measured or put, the next row, whether it has an optional member, and the number of the refusal at that row or 0.
#[derive(Clone, Copy)]
pub struct Laid {
    pub end: usize,
    pub row: usize,
    pub optionals: bool,
    pub fault: usize,
}

// The same, made of its fields.
fn laid_of(end: usize, row: usize, optionals: bool, fault: usize) -> Laid
    ensures { result ≡ record { end = end; row = row; optionals = optionals; fault = fault } }
{
    Laid {
        end: end,
        row: row,
        optionals: optionals,
        fault: fault,
    }
}

// Writes under a prepared table: checks the rows, each 20 then 21, then 22, and puts the message at the output's start. Gives the message's length.
// The first pass checks and measures, the second puts: so the output is changed only after every check, and nothing is put twice.
pub fn write_rows(
    table: &[u8],
    begin: usize,
    shapes: &[u8; 256],
    top: usize,
    old: bool,
    count: usize,
    rows: &[u8],
    buffer: &[u8],
    out: &mut [u8],
) -> Result<usize, Refusal>
    requires begin_value { begin ≡ types_at table.now }
    requires shapes_value { shapes.now ≡ shapes_of table.now }
    requires top_bound { (top < 65536) × (count ≤ 4294967296) × (length buffer.now ≤ 65536) }
    ensures { (result ≡ outcome_of (written table.now top old count rows.now buffer.now (length out.old))) × (out.new ≡ output (written table.now top old count rows.now buffer.now (length out.old)) out.old) }
{
    if rows.len() / 12 < count {
        return Err(Refusal {
            number: 20,
            place: count,
        });
    }
    let n = measure::measure(table, begin, shapes, top, old, count, rows, buffer)?;
    if 65536 < n {
        return Err(Refusal {
            number: 22,
            place: n,
        });
    }
    if out.len() < n {
        return Err(Refusal {
            number: 22,
            place: n,
        });
    }
    message::put_message(table, begin, shapes, out, top, old, count, rows, buffer)
}
