// The walk over a message under a prepared table.
// lists.rt has a parameter list, plain.rt one whose members may be any bytes; `slices` has the slices of a record, `pairs` the pairs of an exception in encoding 1.0.
#![tactic(auto)]

pub mod lists;
pub mod plain;

ghost use Rattle.std.specs.Prelude.{◌≡◌, ℕ, ◌≤◌, length, drop};
ghost use Rattle.encoding.specs.Result.{ok, must};
ghost use Rattle.encoding.specs.Number.{byte};
ghost use Rattle.encoding.specs.Table.{types_at, kind as kind-of};
ghost use Rattle.encoding.specs.Old.{no_old, lead_form};
ghost use Rattle.encoding.specs.Message.{Read, marker_form, outer, contents, old_contents, body, rows};
ghost use Rattle.wire.specs.Steps.{step_of, sized_of};
ghost use Rattle.shapes.specs.Shapes.{shapes_of};
ghost use Rattle.level.specs.Fill.{fill};
ghost use Rattle.slices.specs.Walks.{marker_of, ended_walk, read_walk, body_walk};
ghost use Rattle.reader.specs.OldUse.{OldUse};
ghost use Rattle.reader.specs.Takes.{Takes};

use slices::Walk;
use wire::{Counted, Refusal};

// What a caller that reads many messages finds once of table and top: `old` is what `judge_old` gives. If `stop` is above 0, the top is a parameter list that takes member rows `from` to `stop` - 1, all inside the table, whose member rows begin at `first`; from row `bare` on none of them is required.
#[derive(Clone, Copy)]
pub struct Seat {
    pub old: usize,
    pub first: usize,
    pub from: usize,
    pub stop: usize,
    pub bare: usize,
}

// What a caller that walks more than once hands in as `old_use`: 1 where encoding 1.0 can be used with table and top, 2 where it cannot (26). So 26 is judged once for all messages.
pub fn judge_old(table: &[u8], begin: usize, top: usize) -> usize
    requires { begin ≡ types_at table.now }
    ensures { OldUse table.now top result }
{
    if old::no_old(table, begin, top) { 2 } else { 1 }
}

// Encoding 1.0 cannot be used: as the caller says, or by table and top where it hands in 0, not known.
fn barred(table: &[u8], begin: usize, top: usize, old_use: usize) -> bool
    requires begin_value { begin ≡ types_at table.now }
    requires old_use { OldUse table.now top old_use }
    ensures { result ≡ no_old table.now top }
{
    if old_use == 1 {
        return false;
    }
    if old_use == 2 {
        return true;
    }
    old::no_old(table, begin, top)
}

// The encapsulation's size and version, 1.0 or 1.1; 26, at the first byte, where 1.0 cannot be used. Gives the version, as a number of two bytes.
// Here and below, `begin` is where the type rows begin, and `kind` the top's kind.
// Wrong and ruled out: 1.0 accepted for a class; 26 at the version.
fn capsule(
    table: &[u8],
    begin: usize,
    top: usize,
    old_use: usize,
    kind: usize,
    m: &[u8],
) -> Result<Counted, Refusal>
    requires begin_value { begin ≡ types_at table.now }
    requires old_use { OldUse table.now top old_use }
    requires kind_value { kind ≡ kind-of table.now top }
    ensures { result ≡ sized_of (outer table.now top (length m.now) m.now) }
{
    if m.len() < 4 {
        return Err(Refusal {
            number: 4,
            place: 0,
        });
    }
    let n = wire::int_at(m, 0);
    if n < 6 {
        return Err(Refusal {
            number: 5,
            place: 0,
        });
    }
    if n != m.len() {
        return Err(Refusal {
            number: 5,
            place: 0,
        });
    }
    let version = wire::short_at(m, 4);
    if version == 257 {
        return Ok(Counted {
            number: 257,
            bytes: 6,
        });
    }
    if version != 1 {
        return Err(Refusal {
            number: 6,
            place: 4,
        });
    }
    if kind == 14 {
        return Err(Refusal {
            number: 6,
            place: 4,
        });
    }
    if barred(table, begin, top, old_use) {
        return Err(Refusal {
            number: 26,
            place: 0,
        });
    }
    Ok(Counted {
        number: 1,
        bytes: 6,
    })
}

// A class instance's marker byte.
fn marker(s: &[u8]) -> Result<usize, Refusal>
    ensures { result ≡ step_of (must marker_form byte s.now) }
{
    if s.len() < 1 {
        return Err(Refusal {
            number: 4,
            place: 0,
        });
    }
    if wire::byte_at(s, 0) != 1 {
        return Err(Refusal {
            number: 13,
            place: 0,
        });
    }
    Ok(1)
}

// What comes before the slices of a top of kind k: the marker byte of a class instance, else no byte.
fn marker_of(k: usize, s: &[u8]) -> Result<usize, Refusal>
    ensures { result ≡ step_of (marker_of k s.now) }
{
    if k == 14 {
        return marker(s);
    }
    Ok(0)
}

// No bytes after the record.
fn ended(w: Walk, len: usize) -> Walk
    ensures { result ≡ ended_walk len w }
{
    match w {
        Walk::Done(first, format, count, optionals, slices, end) => {
            if end == len {
                Walk::Done(first, format, count, optionals, slices, end)
            } else {
                Walk::Stop(18, end)
            }
        }
        Walk::Stop(c, p) => Walk::Stop(c, p),
    }
}

// The header byte of a 1.0 exception.
fn lead(s: &[u8]) -> Result<usize, Refusal>
    ensures { result ≡ step_of (must lead_form byte s.now) }
{
    if s.len() < 1 {
        return Err(Refusal {
            number: 4,
            place: 0,
        });
    }
    if wire::byte_at(s, 0) != 0 {
        return Err(Refusal {
            number: 25,
            place: 0,
        });
    }
    Ok(1)
}

// What an encapsulation of 1.1 holds, with a row for each known member. The top takes member rows `from` to `stop` - 1.
fn contents(
    table: &[u8],
    begin: usize,
    shapes: &[u8; 256],
    top: usize,
    kind: usize,
    from: usize,
    stop: usize,
    m: &[u8],
    out: &mut [u8],
) -> Walk
    requires begin_value { begin ≡ types_at table.now }
    requires shapes_value { shapes.now ≡ shapes_of table.now }
    requires kind_value { kind ≡ kind-of table.now top }
    requires takes { Takes table.now top from stop }
    requires in_bounds { 6 ≤ length m.now }
    ensures value { result ≡ read_walk table.now top 6 (contents table.now top (drop 6 m.now)) }
    ensures out_len_unchanged { length out.new ≡ length out.old }
    ensures out_after { (r : Read) (n : ℕ) → contents table.now top (drop 6 m.now) ≡ ok r n → out.new ≡ fill 0 (rows table.now top r.format r.pieces) out.old }
{
    if kind == 15 {
        return lists::list(table, begin, shapes, top, from, stop, m, 6, out);
    }
    let mark = match marker_of(kind, &m[6..]) {
        Ok(mark) => mark,
        Err(refusal) => return Walk::Stop(refusal.number, 6 + refusal.place),
    };
    slices::walks::slices(table, begin, shapes, top, m, 6 + mark, out)
}

// What an encapsulation of 1.0 holds.
fn old_contents(
    table: &[u8],
    begin: usize,
    shapes: &[u8; 256],
    top: usize,
    kind: usize,
    m: &[u8],
    out: &mut [u8],
) -> Walk
    requires begin_value { begin ≡ types_at table.now }
    requires shapes_value { shapes.now ≡ shapes_of table.now }
    requires kind_value { kind ≡ kind-of table.now top }
    requires in_bounds { 6 ≤ length m.now }
    ensures value { result ≡ read_walk table.now top 6 (old_contents table.now top (drop 6 m.now)) }
    ensures out_len_unchanged { length out.new ≡ length out.old }
    ensures out_after { (r : Read) (n : ℕ) → old_contents table.now top (drop 6 m.now) ≡ ok r n → out.new ≡ fill 0 (rows table.now top r.format r.pieces) out.old }
{
    if kind == 15 {
        return lists::old_list(table, begin, shapes, top, m, 6, out);
    }
    match lead(&m[6..]) {
        Ok(_) => pairs::walks::pairs(table, begin, shapes, top, m, 7, out),
        Err(refusal) => Walk::Stop(refusal.number, 6 + refusal.place),
    }
}

// Reads a message under a prepared table and a top, and puts a row for each known member. The version alone decides what follows it.
pub fn body(
    table: &[u8],
    begin: usize,
    shapes: &[u8; 256],
    top: usize,
    old_use: usize,
    m: &[u8],
    out: &mut [u8],
) -> Walk
    requires begin_value { begin ≡ types_at table.now }
    requires shapes_value { shapes.now ≡ shapes_of table.now }
    requires old_use { OldUse table.now top old_use }
    ensures value { result ≡ body_walk table.now top (body table.now top m.now) }
    ensures out_len_unchanged { length out.new ≡ length out.old }
    ensures out_after { (r : Read) (n : ℕ) → body table.now top m.now ≡ ok r n → out.new ≡ fill 0 (rows table.now top r.format r.pieces) out.old }
{
    let row = table::type_row(table, begin, top);
    let kind = row.kind;
    let from = row.a;
    let stop = row.a + row.b;
    let version = match capsule(table, begin, top, old_use, kind, m) {
        Ok(version) => version,
        Err(refusal) => return Walk::Stop(refusal.number, refusal.place),
    };
    if version.number == 1 {
        return ended(
            old_contents(table, begin, shapes, top, kind, m, out),
            m.len(),
        );
    }
    ended(
        contents(table, begin, shapes, top, kind, from, stop, m, out),
        m.len(),
    )
}
