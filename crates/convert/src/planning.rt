// Judges what a walk found: 47, 48, 22; and counts the bytes that the sliced form needs.
ghost use Rattle.std.specs.Prelude.{◌≡◌, ◌≤◌, ◌<◌};
ghost use Rattle.encoding.specs.Table.{types_at, chain};
ghost use Rattle.convert.specs.Reslice.{growth};
ghost use Rattle.convert.specs.Plans.{plan_of, Narrow};

use crate::Plan;
use slices::Walk;

// How many bytes longer the slices of row t and its bases are in sliced form.
fn growth(table: &[u8], begin: usize, t: usize) -> usize
    requires begin_value { begin ≡ types_at table.now }
    requires t_bound { t < 65536 }
    ensures { (result ≡ growth table.now (chain table.now t)) × (result ≤ 4295491588) }
{
    let mut n = 4;
    let mut o = t;
    loop {
        let up = table::chain::base(table, begin, o);
        if up == 0 {
            return n;
        }
        o = up - 1;
        n += 4 + writer::slice::id_len(table, begin, o);
    }
}

// What is to be put of a message of `len` bytes into an output of `room` bytes, by the walk over the message.
pub fn plan(table: &[u8], begin: usize, w: Walk, len: usize, room: usize) -> Plan
    requires begin_value { begin ≡ types_at table.now }
    requires narrow { Narrow len w }
    ensures { result ≡ plan_of table.now len room w }
{
    match w {
        Walk::Stop(c, p) => Plan::Stopped(c, p),
        Walk::Done(first, format, n, optionals, slices, end) => {
            if format != 0 {
                return Plan::Stopped(47, 0);
            }
            if optionals != 0 {
                return Plan::Stopped(48, 0);
            }
            if slices != 0 {
                return Plan::Stopped(48, 0);
            }
            let needed = len + growth(table, begin, first);
            if 65536 < needed {
                return Plan::Stopped(22, needed);
            }
            if room < needed {
                return Plan::Stopped(22, needed);
            }
            Plan::Fits(first, n, needed)
        }
    }
}
