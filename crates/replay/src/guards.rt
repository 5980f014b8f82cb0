// Calls of the frost guard. The line: the refusal's number, its place and 1 if the timer fires, then the state after the report in hex, and `touched` if another lent byte changed.
use crate::{print, writes};
use std::io;
use std::io::Write;

// A report on a state, with just these bytes for the state after it.
pub fn report_call<W: Write>(
    to: &mut W,
    state: &[u8],
    message: &[u8],
    next: &mut [u8],
) -> io::Result<()> {
    print::mark(next);
    let t = guard::report(state, message, next);
    print::number(to, t.refusal as u64)?;
    print::number(to, t.place as u64)?;
    if t.fires {
        print::number(to, 1)?;
    } else {
        print::number(to, 0)?;
    }
    if t.refusal == 0 {
        writes::show(to, next, 32)?;
    } else {
        writes::show(to, next, 0)?;
    }
    Ok(())
}
