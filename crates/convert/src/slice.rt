// Puts a compact record in slices: before the data of each slice, which are copied from the message, its flags, type ID and size.
ghost use Rattle.std.specs.Prelude.{◌≡◌, ◌+◌, ◌-◌, ◌≤◌, ◌<◌, min, length, eqb};
ghost use Rattle.encoding.specs.Result.{pick};
ghost use Rattle.encoding.specs.Number.{string_bytes};
ghost use Rattle.encoding.specs.Table.{types_at, kind, name_of, chain};
ghost use Rattle.pieces.specs.Puts.{Puts};
ghost use Rattle.wire.specs.Put.{put};
ghost use Rattle.convert.specs.Reslice.{reslices, resliced};
ghost use Rattle.convert.specs.Plans.{rows_from, end_at, OwnRows, SliceMoved};

use crate::{Ended, Moved};

// The place after the rows i to k - 1; `start` if there are none.
fn row_end(list: &[u8], i: usize, k: usize, start: usize) -> usize
    requires { (i ≤ k) × (k ≤ 1024) × (start ≤ 8589934592) }
    ensures { (result ≡ end_at list.now i k start) × (result ≤ 8589934592) }
{
    if k == i {
        return start;
    }
    let at = 12 * (k - 1);
    wire::int_at(list, at + 4) + wire::int_at(list, at + 8)
}

// The place after the rows of owner o from row i on, of n rows; `start` if the next row is none of them.
fn own_rows(
    table: &[u8],
    begin: usize,
    list: &[u8],
    n: usize,
    i: usize,
    o: usize,
    start: usize,
) -> Ended
    requires begin_value { begin ≡ types_at table.now }
    requires i_le_n { (i ≤ n) × (n ≤ 1024) × (start ≤ 8589934592) }
    ensures { OwnRows table.now list.now n i o start result }
{
    let owner = table::type_row(table, begin, o);
    let past = owner.a + owner.b;
    let mut k = i;
    while k < n {
        let member = wire::int_at(list, 12 * k);
        if member < owner.a {
            let e = row_end(list, i, k, start);
            return Ended { end: e, row: k };
        }
        if past <= member {
            let e = row_end(list, i, k, start);
            return Ended { end: e, row: k };
        }
        k += 1;
    }
    let e = row_end(list, i, k, start);
    Ended { end: e, row: k }
}

// Where a slice's data end: after its rows and, after optionals, the end marker; no later than the message.
fn data_end(end: usize, optionals: bool, len: usize) -> usize
    requires { end ≤ 8589934592 }
    ensures { result ≡ min (end + pick optionals 1 0) len }
{
    if optionals {
        return (end + 1).min(len);
    }
    end.min(len)
}

// How much a is greater than b.
fn over(a: usize, b: usize) -> usize
    ensures { result ≡ a - b }
{
    if b < a { a - b } else { 0 }
}

// Puts the sliced form of the slice of owner o, which is at `at` in the message with `front` bytes before its data.
fn put_slice(
    table: &[u8],
    begin: usize,
    message: &[u8],
    list: &[u8],
    n: usize,
    i: usize,
    o: usize,
    last: bool,
    at: usize,
    front: usize,
    out: &mut [u8],
    to: usize,
) -> Moved
    requires begin_value { begin ≡ types_at table.now }
    requires i_le_n { (i ≤ n) × (n ≤ 1024) × (at ≤ 65536) × (front ≤ 65541) × (to ≤ 576460752303423488) × (length message.now ≤ 65536) }
    ensures { SliceMoved table.now message.now list.now n i o last at front out.old out.new to result }
{
    let d = at + front;
    let optionals = wire::has_optionals(wire::byte_at(message, at));
    let own = own_rows(table, begin, list, n, i, o, d);
    let e = data_end(own.end, optionals, message.len());
    let k = over(e, d);
    let a = writer::slice::put_front(table, begin, out, to, o, optionals, last, k);
    wire::put_part(out, a, message, d, k);
    Moved {
        row: own.row,
        at: e,
        to: a + k,
    }
}

// Puts the sliced form of the slices of row t and its bases, which begin at `at`, at the same place of the output, and returns its end.
fn put_slices(
    table: &[u8],
    begin: usize,
    message: &[u8],
    list: &[u8],
    n: usize,
    t: usize,
    at: usize,
    out: &mut [u8],
) -> usize
    requires begin_value { begin ≡ types_at table.now }
    requires n_bound { (n ≤ 1024) × (t < 65536) × (at ≤ 7) × (length message.now ≤ 65536) }
    ensures { Puts at (reslices table.now message.now at (1 + length (string_bytes (name_of table.now t))) (chain table.now t) (rows_from list.now 0 n)) out.old out.new result }
{
    let mut o = t;
    let mut i = 0;
    let mut p = at;
    let mut to = at;
    let mut front = 1 + writer::slice::id_len(table, begin, t);
    loop {
        let up = table::chain::base(table, begin, o);
        let s = put_slice(
            table,
            begin,
            message,
            list,
            n,
            i,
            o,
            up == 0,
            p,
            front,
            out,
            to,
        );
        if up == 0 {
            return s.to;
        }
        o = up - 1;
        i = s.row;
        p = s.at;
        to = s.to;
        front = 1;
    }
}

// Where the first slice of a record of row t's kind begins: a class has its marker before it.
pub fn first_at(table: &[u8], begin: usize, t: usize) -> usize
    requires { begin ≡ types_at table.now }
    ensures { (result ≡ 6 + pick (eqb (kind table.now t) 14) 1 0) × (4 ≤ result) × (result ≤ 7) }
{
    if table::kind(table, begin, t) == 14 {
        return 7;
    }
    6
}

// Puts the sliced form of a record of row t whose first slice is at `at`: size, version and marker, then the slices.
pub fn put_record(
    table: &[u8],
    begin: usize,
    message: &[u8],
    list: &[u8],
    n: usize,
    t: usize,
    at: usize,
    needed: usize,
    out: &mut [u8],
)
    requires begin_value { begin ≡ types_at table.now }
    requires n_bound { (n ≤ 1024) × (t < 65536) × (4 ≤ at) × (at ≤ 7) × (at ≤ length message.now) × (length message.now ≤ 65536) }
    ensures { length (resliced table.now message.now t at needed (rows_from list.now 0 n)) ≤ length out.old → out.new ≡ put 0 (resliced table.now message.now t at needed (rows_from list.now 0 n)) out.old }
{
    wire::put_number(out, 0, 4, needed);
    wire::put_part(out, 4, message, 4, at - 4);
    put_slices(table, begin, message, list, n, t, at, out);
}
