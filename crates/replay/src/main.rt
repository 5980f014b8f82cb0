// Runs recorded calls and prints a line for each. `stdout` holds what an independent implementation answers.
// Standard input has records: a head of seven numbers, four bytes each, little-endian, then the record's bytes. The first number is the record's kind, the second the number of its bytes.
//   0  a table, for the records after it
//   1  a call of the reader: top, bytes of the lent list; the bytes are the message
//   2  a call of the member view: top, member row, length of the message; the bytes are message and fallback
//   3  a call of the writer: type, format, count, length of the rows, bytes of the output; the bytes are rows and buffer
//   4  a call of the reader with eight row records: top; the bytes are the message
//   5  a check of the table: no bytes
//   6  a call of the converter: top, bytes of the output; the bytes are the message
//   7  a call that sets a member: top, member row, length of the message, bytes of the output; the bytes are message and new bytes
//   8  a call that removes a member: top, member row, bytes of the output; the bytes are the message
//   9  a call for many messages: top, bytes of the list of answers, bytes of the list of rows; the bytes are the buffer
//   10 a call for the season sheet: top, member row, length of the buffer; the bytes are buffer and sheet
//   11 two tables compared: both tops, the length of the old table, bytes of the lent list; the bytes are both tables
//   12 an endpoint opened: bytes lent for its numbers, 0; the bytes are the endpoint. Or found: bytes lent for its numbers, 1, its number; the bytes are the proxy
//   13 an endpoint written: type, port, timeout, compress, bytes of the output; the bytes are the host
//   14 a report to a frost guard: bytes lent for the state after it, length of the state; the bytes are state and message
//   15 a check of a burst plan: how many numbers the messages have; the bytes are messages and entries, eight bytes a number
//   16 a call of the planner: the numbers of the lent list; the bytes are the messages
// print.rt prints, reads.rt, writes.rt, records.rt, tables.rt, conversions.rt, changes.rt, nights.rt, sheets.rt, comparisons.rt, endpoints.rt, guards.rt and plans.rt make the calls.
#![tactic(auto)]

mod changes;
mod comparisons;
mod conversions;
mod endpoints;
mod guards;
mod nights;
mod plans;
mod print;
mod reads;
mod records;
mod sheets;
mod tables;
mod writes;

use std::io;
use std::io::{Read, Write};

// Number i of a head.
fn field(head: &[u8; 28], i: usize) -> u32 {
    (wire::int_at(head, i) & 4294967295) as u32
}

// A call whose bytes have two parts, the first of n bytes.
fn split_call<'a, 't, W: Write>(
    to: &mut W,
    head: &[u8; 28],
    kind: usize,
    table: &'t [u8],
    input: &'a [u8],
    n: usize,
    lent: &mut [u8],
) -> io::Result<()> {
    if input.len() < n {
        return Ok(());
    }
    if kind == 2 {
        reads::view_call(
            to,
            table,
            field(head, 8),
            &input[0..n],
            field(head, 12),
            &input[n..],
        )?;
        return Ok(());
    }
    writes::write_call(
        to,
        table,
        field(head, 8),
        field(head, 12),
        field(head, 16),
        &input[0..n],
        &input[n..],
        lent,
    )?;
    Ok(())
}

// A call that sets a member; its bytes have two parts, the first of n bytes.
fn set_call<W: Write>(
    to: &mut W,
    head: &[u8; 28],
    table: &[u8],
    input: &[u8],
    lent: &mut [u8],
) -> io::Result<()> {
    let n = wire::int_at(head, 16);
    let room = wire::int_at(head, 20);
    if n <= input.len() {
        if room <= lent.len() {
            changes::set_call(
                to,
                table,
                field(head, 8),
                &input[0..n],
                field(head, 12),
                &input[n..],
                &mut lent[0..room],
            )?;
        }
    }
    Ok(())
}

// A call that removes a member.
fn remove_call<W: Write>(
    to: &mut W,
    head: &[u8; 28],
    table: &[u8],
    input: &[u8],
    lent: &mut [u8],
) -> io::Result<()> {
    let room = wire::int_at(head, 16);
    if room <= lent.len() {
        changes::remove_call(
            to,
            table,
            field(head, 8),
            input,
            field(head, 12),
            &mut lent[0..room],
        )?;
    }
    Ok(())
}

// A call that writes an endpoint.
fn endpoint_write_call<W: Write>(
    to: &mut W,
    head: &[u8; 28],
    input: &[u8],
    lent: &mut [u8],
) -> io::Result<()> {
    let room = wire::int_at(head, 24);
    if room <= lent.len() {
        endpoints::write_call(
            to,
            field(head, 8),
            input,
            field(head, 12),
            field(head, 16),
            field(head, 20) == 1,
            &mut lent[0..room],
        )?;
    }
    Ok(())
}

// A call that opens an endpoint, or finds one.
fn endpoint_call<W: Write>(
    to: &mut W,
    head: &[u8; 28],
    input: &[u8],
    lent: &mut [u8],
) -> io::Result<()> {
    let room = wire::int_at(head, 8);
    if room <= lent.len() {
        if wire::int_at(head, 12) == 0 {
            endpoints::open_call(to, input, &mut lent[0..room])?;
            return Ok(());
        }
        endpoints::find_call(to, input, field(head, 16), &mut lent[0..room])?;
    }
    Ok(())
}

// A report to a frost guard.
fn guard_call<W: Write>(
    to: &mut W,
    head: &[u8; 28],
    input: &[u8],
    lent: &mut [u8],
) -> io::Result<()> {
    let room = wire::int_at(head, 8);
    let n = wire::int_at(head, 12);
    if room <= lent.len() {
        if n <= input.len() {
            guards::report_call(to, &input[0..n], &input[n..], &mut lent[0..room])?;
        }
    }
    Ok(())
}

// A call for the season sheet.
fn sheet_call<W: Write>(
    to: &mut W,
    head: &[u8; 28],
    table: &[u8],
    input: &[u8],
    lent: &mut [u8],
) -> io::Result<()> {
    let n = wire::int_at(head, 16);
    if n <= input.len() {
        sheets::sheet_call(
            to,
            table,
            field(head, 8),
            &input[0..n],
            field(head, 12),
            &input[n..],
            lent,
        )?;
    }
    Ok(())
}

// A call that compares two tables; the old one has n bytes.
fn compare_call<W: Write>(
    to: &mut W,
    head: &[u8; 28],
    input: &[u8],
    n: usize,
    lent: &mut [u8],
) -> io::Result<()> {
    if input.len() < n {
        return Ok(());
    }
    comparisons::compare_call(
        to,
        &input[0..n],
        wire::int_at(head, 8),
        &input[n..],
        wire::int_at(head, 12),
        lent,
    )?;
    Ok(())
}

// A call with its bytes, and `lent` to be its list or output.
fn call<'a, 't, W: Write>(
    to: &mut W,
    head: &[u8; 28],
    table: &'t [u8],
    input: &'a [u8],
    lent: &mut [u8],
) -> io::Result<()> {
    let kind = wire::int_at(head, 0);
    if kind == 1 {
        let room = wire::int_at(head, 12);
        if room <= lent.len() {
            reads::read_call(to, table, field(head, 8), input, &mut lent[0..room])?;
        }
        return Ok(());
    }
    if kind == 2 {
        split_call(to, head, kind, table, input, wire::int_at(head, 16), lent)?;
        return Ok(());
    }
    if kind == 3 {
        let room = wire::int_at(head, 24);
        if room <= lent.len() {
            split_call(
                to,
                head,
                kind,
                table,
                input,
                wire::int_at(head, 20),
                &mut lent[0..room],
            )?;
        }
        return Ok(());
    }
    if kind == 4 {
        records::records_call(to, table, field(head, 8), input)?;
        return Ok(());
    }
    if kind == 6 {
        let room = wire::int_at(head, 12);
        if room <= lent.len() {
            conversions::convert_call(to, table, field(head, 8), input, &mut lent[0..room])?;
        }
        return Ok(());
    }
    if kind == 7 {
        set_call(to, head, table, input, lent)?;
        return Ok(());
    }
    if kind == 8 {
        remove_call(to, head, table, input, lent)?;
        return Ok(());
    }
    if kind == 9 {
        let room = wire::int_at(head, 12);
        if room <= lent.len() {
            nights::night_call(
                to,
                table,
                field(head, 8),
                input,
                &mut lent[0..room],
                wire::int_at(head, 16),
            )?;
        }
        return Ok(());
    }
    if kind == 10 {
        sheet_call(to, head, table, input, lent)?;
        return Ok(());
    }
    if kind == 11 {
        let room = wire::int_at(head, 20);
        if room <= lent.len() {
            compare_call(to, head, input, wire::int_at(head, 16), &mut lent[0..room])?;
        }
        return Ok(());
    }
    if kind == 12 {
        endpoint_call(to, head, input, lent)?;
        return Ok(());
    }
    if kind == 13 {
        endpoint_write_call(to, head, input, lent)?;
        return Ok(());
    }
    if kind == 14 {
        guard_call(to, head, input, lent)?;
        return Ok(());
    }
    if kind == 15 {
        plans::check_call(to, input, wire::int_at(head, 8))?;
        return Ok(());
    }
    if kind == 16 {
        plans::plan_call(to, input, wire::int_at(head, 8))?;
        return Ok(());
    }
    tables::check_call(to, table)?;
    Ok(())
}

// Reads to the start of a buffer, until it is full or nothing more comes; returns how many bytes there are.
fn read_full<R: Read>(from: &mut R, buf: &mut [u8]) -> io::Result<usize> {
    let mut done = 0;
    while done < buf.len() {
        let n = from.read(&mut buf[done..])?;
        if n == 0 {
            break;
        }
        done += n;
    }
    Ok(done)
}

// Reads n bytes to the start of a buffer; returns how many there are.
fn fetch<R: Read>(from: &mut R, buf: &mut [u8], n: usize) -> io::Result<usize> {
    if n <= buf.len() {
        return read_full(from, &mut buf[0..n]);
    }
    Ok(0)
}

// One record: holds a table, or makes a call under the table held. Returns the length of the table held.
fn record<R: Read, W: Write>(
    from: &mut R,
    to: &mut W,
    head: &[u8; 28],
    table: &mut [u8],
    input: &mut [u8],
    lent: &mut [u8],
    held: usize,
) -> io::Result<usize> {
    let n = wire::int_at(head, 4);
    if wire::int_at(head, 0) == 0 {
        return fetch(from, table, n);
    }
    let k = fetch(from, input, n)?;
    if held <= table.len() {
        if k <= input.len() {
            call(to, head, &table[0..held], &input[0..k], lent)?;
        }
    }
    Ok(held)
}

// The records up to the end of the input, at most a million, so that the loop ends.
fn run<R: Read, W: Write>(from: &mut R, to: &mut W) -> io::Result<()> {
    let mut table = [0u8; 65536];
    let mut input = [0u8; 131072];
    let mut lent = [0u8; 65536];
    let mut held = 0;
    for _ in 0..1000000u64 {
        let mut head = [0u8; 28];
        if read_full(from, &mut head)? < 28 {
            return Ok(());
        }
        held = record(from, to, &head, &mut table, &mut input, &mut lent, held)?;
    }
    Ok(())
}

// Runs the records of standard input; an error of reading or writing ends the program with it.
fn main(rt: HostRuntime) -> io::Result<()> {
    let mut from = rt.reader();
    let mut to = io::writer(&rt);
    run(&mut from, &mut to)
}
