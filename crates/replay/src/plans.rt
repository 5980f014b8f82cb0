// Calls on burst plans. The line: the refusal's number and its place, then the numbers of the plan that was made, and `touched` if a number of the lent list after them changed.
use crate::print;
use bursts::{Checked, Planned};
use std::io;
use std::io::Write;

// What every lent number is before a call.
const MARK: u64 = 12297829382473034410;

// Puts the numbers in some bytes, eight bytes each, into a list; returns how many. More than the list holds are none.
fn numbers(s: &[u8], list: &mut [u64]) -> usize {
    let n = s.len() / 8;
    if list.len() < n {
        return 0;
    }
    for i in 0..n {
        list[i] = wire::long_at(s, 8 * i) as u64;
    }
    n
}

// Prints the first n numbers of a list, and whether it was touched after them.
fn show<W: Write>(to: &mut W, list: &[u64], n: usize) -> io::Result<()> {
    for i in 0..list.len() {
        if i < n {
            print::number(to, list[i])?;
        } else {
            if list[i] != MARK {
                to.write_all(b"touched ")?;
            }
        }
    }
    to.write_all(b"\n")?;
    Ok(())
}

// Checks a plan and prints the line.
fn check<W: Write>(to: &mut W, messages: &[u64], entries: &[u64]) -> io::Result<()> {
    let c = bursts::check_plan(messages, entries);
    match c {
        Checked::Sound => {
            to.write_all(b"0 0 \n")?;
        }
        Checked::Breaks(p) => {
            print::number(to, 46)?;
            print::number(to, p)?;
            to.write_all(b"\n")?;
        }
    }
    Ok(())
}

// Checks a plan by the first n and k numbers of two lists.
fn check_parts<W: Write>(
    to: &mut W,
    messages: &[u64],
    n: usize,
    entries: &[u64],
    k: usize,
) -> io::Result<()> {
    if n <= messages.len() {
        if k <= entries.len() {
            check(to, &messages[0..n], &entries[0..k])?;
        }
    }
    Ok(())
}

// Checks a plan: the first `count` numbers are those of the messages.
pub fn check_call<W: Write>(to: &mut W, input: &[u8], count: usize) -> io::Result<()> {
    if input.len() / 8 < count {
        return Ok(());
    }
    let at = 8 * count;
    let mut messages = [0u64; 64];
    let mut entries = [0u64; 64];
    let n = numbers(&input[0..at], &mut messages);
    let k = numbers(&input[at..], &mut entries);
    check_parts(to, &messages, n, &entries, k)?;
    Ok(())
}

// Plans messages and prints the line.
fn plan<W: Write>(to: &mut W, messages: &[u64], list: &mut [u64]) -> io::Result<()> {
    let p = bursts::plan(messages, list);
    match p {
        Planned::Made(k) => {
            print::number(to, 0)?;
            print::number(to, 0)?;
            show(to, list, messages.len() / 2 * 2)?;
        }
        Planned::Unplanned(c, q) => {
            print::number(to, c as u64)?;
            print::number(to, q)?;
            show(to, list, 0)?;
        }
    }
    Ok(())
}

// Plans the first n numbers of a list, and lends `room` numbers of another.
fn plan_parts<W: Write>(
    to: &mut W,
    messages: &[u64],
    n: usize,
    list: &mut [u64],
    room: usize,
) -> io::Result<()> {
    if n <= messages.len() {
        if room <= list.len() {
            plan(to, &messages[0..n], &mut list[0..room])?;
        }
    }
    Ok(())
}

// Plans messages, with a lent list of `room` numbers.
pub fn plan_call<W: Write>(to: &mut W, input: &[u8], room: usize) -> io::Result<()> {
    let mut messages = [0u64; 64];
    let mut list = [12297829382473034410u64; 64];
    let n = numbers(input, &mut messages);
    plan_parts(to, &messages, n, &mut list, room)?;
    Ok(())
}
