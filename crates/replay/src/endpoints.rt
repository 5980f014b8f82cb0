// Calls on one endpoint of a proxy. The line of opening one and of finding one: the refusal's number and its place, then the seven or three numbers, which are 0 on a refusal, and `touched` if another lent byte changed.
// Writing prints the line of the writer.
use crate::{print, writes};
use endpoint::Opened;
use locate::Located;
use std::io;
use std::io::Write;

// Prints a refusal of a call with n numbers.
fn refused<W: Write>(to: &mut W, c: u32, p: u32, n: usize) -> io::Result<()> {
    print::number(to, c as u64)?;
    print::number(to, p as u64)?;
    for i in 0..n {
        print::number(to, 0)?;
    }
    Ok(())
}

// Prints that nothing was refused, then n numbers that the call put at the start of the lent bytes.
fn given<W: Write>(to: &mut W, numbers: &[u8], n: usize) -> io::Result<()> {
    print::number(to, 0)?;
    print::number(to, 0)?;
    if n <= numbers.len() / 4 {
        print::numbers(to, &numbers[0..4 * n])?;
    }
    Ok(())
}

// Ends the line of a call that put n numbers; all other lent bytes have to be as they were.
fn end<W: Write>(to: &mut W, numbers: &[u8], n: usize) -> io::Result<()> {
    if n <= numbers.len() / 4 {
        if print::is_touched(&numbers[4 * n..]) {
            to.write_all(b"touched")?;
        }
    }
    to.write_all(b"\n")?;
    Ok(())
}

// Opens an endpoint.
pub fn open_call<W: Write>(to: &mut W, bytes: &[u8], numbers: &mut [u8]) -> io::Result<()> {
    print::mark(numbers);
    let o = endpoint::open_numbers(bytes, numbers);
    match o {
        Opened::Is(k, a, n, p, t, c) => {
            given(to, numbers, 7)?;
            end(to, numbers, 7)?;
        }
        Opened::Unopened(k) => {
            given(to, numbers, 7)?;
            end(to, numbers, 7)?;
        }
        Opened::Refused(c, p) => {
            refused(to, c, p, 7)?;
            end(to, numbers, 0)?;
        }
    }
    Ok(())
}

// Finds an endpoint in its proxy.
pub fn find_call<W: Write>(to: &mut W, proxy: &[u8], n: u32, numbers: &mut [u8]) -> io::Result<()> {
    print::mark(numbers);
    let o = locate::endpoint_at_numbers(proxy, n, numbers);
    match o {
        Located::At(count, place, length) => {
            given(to, numbers, 3)?;
            end(to, numbers, 3)?;
        }
        Located::Refused(c, p) => {
            refused(to, c, p, 3)?;
            end(to, numbers, 0)?;
        }
    }
    Ok(())
}

// Writes an endpoint.
pub fn write_call<W: Write>(
    to: &mut W,
    kind: u32,
    host: &[u8],
    port: u32,
    timeout: u32,
    compress: bool,
    out: &mut [u8],
) -> io::Result<()> {
    print::mark(out);
    writes::show_answer(
        to,
        endpoint::write_endpoint(kind, host, port, timeout, compress, out),
        out,
    )?;
    Ok(())
}
