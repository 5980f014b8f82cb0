// Puts the members of a parameter list or the slices of a chain, and a message. The rows were checked before. `old` says that the encoding is 1.0.
ghost use Rattle.std.specs.Prelude.{◌≡◌, true, ◌*◌, ◌≤◌, ◌<◌, length, eqb};
ghost use Rattle.encoding.specs.Table.{types_at, kind};
ghost use Rattle.encoding.specs.Message.{encapsulate};
ghost use Rattle.shapes.specs.Shapes.{shapes_of};
ghost use Rattle.pieces.specs.Puts.{Puts};
ghost use Rattle.writer.specs.Slices.{encoding_as};
ghost use Rattle.writer.specs.Messages.{version_of, lead_of, parts_of, contents_of, AllPut};

use crate::slice;
use wire::Refusal;

// Puts the members of a parameter list t, or the slices of row t and its bases.
fn put_parts(
    table: &[u8],
    begin: usize,
    shapes: &[u8; 256],
    out: &mut [u8],
    start: usize,
    t: usize,
    list: bool,
    old: bool,
    count: usize,
    rows: &[u8],
    buffer: &[u8],
) -> Result<usize, Refusal>
    requires begin_value { begin ≡ types_at table.now }
    requires shapes_value { shapes.now ≡ shapes_of table.now }
    requires list_value { list ≡ eqb (kind table.now t) 15 }
    requires start_bound { (start ≤ 7) × (t < 65536) × (count ≤ 4294967296) × (length buffer.now ≤ 65536) × (12 * count ≤ length rows.now) }
    ensures { AllPut table.now old rows.now buffer.now true count t start (parts_of table.now old list rows.now buffer.now count t) out.old out.new result }
{
    let first = table::members_at(table, begin);
    let all = table::members(table);
    let labels = table::names_at(table, begin);
    let mut at = start;
    let mut o = t;
    let mut i = 0;
    loop {
        let owner = slice::owner_at(table, begin, labels, o);
        let d = slice::put_part(
            table,
            shapes,
            first,
            all,
            out,
            at,
            o,
            owner,
            list,
            owner.up == 0,
            i,
            old,
            count,
            rows,
            buffer,
        );
        if d.fault != 0 {
            return Err(Refusal {
                number: d.fault,
                place: d.row,
            });
        }
        if owner.up == 0 {
            if d.row < count {
                return Err(Refusal {
                    number: 20,
                    place: d.row,
                });
            }
            return Ok(d.end);
        }
        at = d.end;
        o = owner.up - 1;
        i = d.row;
    }
}

// Puts what comes before the members or slices of a type of kind k, and returns its end: the marker of a class instance, in 1.0 the header byte of an exception.
fn put_lead(out: &mut [u8], k: usize, old: bool) -> usize
    ensures { Puts 6 (lead_of k old) out.old out.new result × (result ≤ 7) }
{
    if k == 15 {
        return 6;
    }
    if k == 14 {
        wire::put_number(out, 6, 1, 1);
        return 7;
    }
    if old {
        wire::put_number(out, 6, 1, 0);
        return 7;
    }
    6
}

// The version's two bytes as a number: 1.0 or 1.1.
fn version(old: bool) -> usize
    ensures { result ≡ version_of old }
{
    if old {
        return 1;
    }
    257
}

// Puts the message: the data, then the size and the version before them.
pub fn put_message(
    table: &[u8],
    begin: usize,
    shapes: &[u8; 256],
    out: &mut [u8],
    t: usize,
    old: bool,
    count: usize,
    rows: &[u8],
    buffer: &[u8],
) -> Result<usize, Refusal>
    requires begin_value { begin ≡ types_at table.now }
    requires shapes_value { shapes.now ≡ shapes_of table.now }
    requires t_bound { (t < 65536) × (count ≤ 4294967296) × (length buffer.now ≤ 65536) × (12 * count ≤ length rows.now) }
    ensures { AllPut table.now old rows.now buffer.now true count t 0 (encapsulate (encoding_as old) (contents_of table.now old rows.now buffer.now count t)) out.old out.new result }
{
    let k = table::kind(table, begin, t);
    let start = put_lead(out, k, old);
    let end = put_parts(
        table,
        begin,
        shapes,
        out,
        start,
        t,
        k == 15,
        old,
        count,
        rows,
        buffer,
    )?;
    wire::put_number(out, 0, 4, end);
    wire::put_number(out, 4, 2, version(old));
    Ok(end)
}
