// The writer's calls: rows and a buffer to a message. None asks anything of its input.
#![tactic(auto)]

ghost use Rattle.std.specs.Prelude.{◌≡◌, ◌<◌, length, replicate};
ghost use Rattle.encoding.specs.Table.{types_at};
ghost use Rattle.encoding.specs.Write.{writing, output, writing_of};
ghost use Rattle.prepare.specs.Preparing.{checks};
ghost use Rattle.prepare.specs.declared.Prepared.TheVariants.{Ready};
ghost use Rattle.shapes.specs.Shapes.{shapes_of};
ghost use Rattle.writer.specs.Messages.{outcome_of};
ghost use Rattle.writing.specs.Tell.{Fits, fitted, tells};

use encoding::Writing;
use prepare::Prepared;
use wire::Refusal;

// What `prepare` finds; if it refuses nothing, the shapes are filled. `begin` is where the type rows begin.
// The reader has the same of its own: one function for both would not be inlined, and would cost each call 10 ns.
fn prepared(
    table: &[u8],
    begin: usize,
    top: usize,
    format: usize,
    len: usize,
    shapes: &mut [u8; 256],
) -> Prepared
    requires begin_value { begin ≡ types_at table.now }
    requires shapes_value { shapes.old ≡ replicate 256 10 }
    ensures value { result ≡ checks table.now top format len }
    ensures shapes_after { checks table.now top format len ≡ Ready → shapes.new ≡ shapes_of table.now }
{
    if onepass::fill(table, begin, shapes) {
        return prepare::after_rules(table, begin, top, format, len);
    }
    let p = prepare::prepare(table, top, format, len);
    match p {
        Prepared::Refused(c, q) => Prepared::Refused(c, q),
        Prepared::Ready => {
            shapes::fill(table, begin, shapes);
            Prepared::Ready
        }
    }
}

// Checks and writes.
fn checked(
    table: &[u8],
    top: usize,
    format: usize,
    count: usize,
    rows: &[u8],
    buffer: &[u8],
    out: &mut [u8],
) -> Result<usize, Refusal>
    requires { count < 4294967296 }
    ensures value { (result ≡ outcome_of (writing table.now top format count rows.now buffer.now (length out.old))) × Fits result }
    ensures out_after { out.new ≡ output (writing table.now top format count rows.now buffer.now (length out.old)) out.old }
{
    let mut shapes = [10u8; 256];
    let begin = table::types_at(table);
    let p = prepared(table, begin, top, format, buffer.len(), &mut shapes);
    match p {
        Prepared::Refused(number, place) => Err(Refusal { number, place }),
        Prepared::Ready => {
            writer::write_rows(
                table,
                begin,
                &shapes,
                top,
                format == 2,
                count,
                rows,
                buffer,
                out,
            )
        }
    }
}

// The same, with the slices passed as new parts: passing them unchanged causes a store-forwarding stall.
fn outcome(
    table: &[u8],
    top: usize,
    format: usize,
    count: usize,
    rows: &[u8],
    buffer: &[u8],
    out: &mut [u8],
) -> Result<usize, Refusal>
    requires { count < 4294967296 }
    ensures value { (result ≡ outcome_of (writing table.now top format count rows.now buffer.now (length out.old))) × Fits result }
    ensures out_after { out.new ≡ output (writing table.now top format count rows.now buffer.now (length out.old)) out.old }
{
    checked(
        &table[0..],
        top,
        format,
        count,
        &rows[0..],
        &buffer[0..],
        out,
    )
}

// The outcome for an output of `room` bytes, from the outcome for an output that is too short for any message.
fn fit(o: Result<usize, Refusal>, room: usize) -> Result<usize, Refusal>
    requires { Fits o }
    ensures { (result ≡ fitted room o) × Fits result }
{
    match o {
        Ok(n) => Ok(n),
        Err(refusal) => {
            if refusal.number == 22 {
                if refusal.place <= 65536 {
                    if refusal.place <= room {
                        return Ok(refusal.place);
                    }
                }
            }
            Err(refusal)
        }
    }
}

// The answer of an outcome.
fn writing_of(o: Result<usize, Refusal>) -> Writing
    requires { Fits o }
    ensures { result ≡ tells o }
{
    match o {
        Ok(n) => Writing::Written(n as u32),
        Err(refusal) => Writing::Rejected(refusal.number as u32, refusal.place as u32),
    }
}

// The writer: rows and a buffer to a message of a type and format at the output's start; bytes of the output after the message stay, and on a refusal all of them.
// Wrong and ruled out: a writer that answers right and puts nothing; one that writes whatever the format named; one that writes 1.1 for format 2.
pub fn write(
    table: &[u8],
    top: u32,
    format: u32,
    count: u32,
    rows: &[u8],
    buffer: &[u8],
    out: &mut [u8],
) -> Writing
    ensures value { result ≡ writing_of (writing table.now top format count rows.now buffer.now (length out.old)) }
    ensures out_after { out.new ≡ output (writing table.now top format count rows.now buffer.now (length out.old)) out.old }
{
    let o = outcome(
        table,
        top as usize,
        format as usize,
        count as usize,
        rows,
        buffer,
        out,
    );
    writing_of(o)
}

// The writer's answer for an output of `room` bytes; no output is touched.
// Wrong and ruled out: an answer that is the same for every room; 22 at the room instead of the bytes needed.
pub fn written(
    table: &[u8],
    top: u32,
    format: u32,
    count: u32,
    rows: &[u8],
    buffer: &[u8],
    room: usize,
) -> Writing
    ensures { result ≡ writing_of (writing table.now top format count rows.now buffer.now room) }
{
    let mut none = [0u8; 1];
    let o = outcome(
        table,
        top as usize,
        format as usize,
        count as usize,
        rows,
        buffer,
        &mut none,
    );
    writing_of(fit(o, room))
}
