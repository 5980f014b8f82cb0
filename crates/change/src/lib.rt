// Sets or removes one optional of an accepted message and passes on the rest. No public call asks anything of its input.
// planning.rt decides what is exchanged, or why not; `seek` finds the place, `splice` puts the result.
#![tactic(auto)]

mod planning;

ghost use Rattle.std.specs.Prelude.{◌≡◌, List, ℕ, length};
ghost use Rattle.std.proofs.Math.Option.{none, some};
ghost use Rattle.encoding.specs.Write.{Out, next, bounded, output, writing_of};
ghost use Rattle.edit.specs.Change.{set as setting, remove as removing};
ghost use Rattle.change.specs.Planned.{Ripe, PlanFits};

use encoding::Writing;
use splice::Cut;

// What is to be done with the message; or a refusal's number and place.
#[derive(Clone, Copy)]
pub enum Plan {
    Make(Cut),
    Stop(usize, usize),
}

// The result's length for an output of `room` bytes; or the plan's refusal, or 22.
fn answered(p: Plan, message: &[u8], bytes: &[u8], room: usize) -> Writing
    requires { PlanFits (length message.now) (length bytes.now) p }
    ensures { (o : Out (List ℕ)) → Ripe o message.now bytes.now p → result ≡ writing_of (next o (bounded room)) }
{
    match p {
        Plan::Make(c) => {
            let n = splice::size_after(c, message.len(), bytes.len());
            if 65536 < n {
                return Writing::Rejected(22, n as u32);
            }
            if room < n {
                return Writing::Rejected(22, n as u32);
            }
            Writing::Written(n as u32)
        }
        Plan::Stop(c, q) => Writing::Rejected(c as u32, q as u32),
    }
}

// The same for an output, with the result put into it.
fn finished(p: Plan, message: &[u8], bytes: &[u8], out: &mut [u8]) -> Writing
    requires { PlanFits (length message.now) (length bytes.now) p }
    ensures by_index { (o : Out (List ℕ)) → Ripe o message.now bytes.now p → result ≡ writing_of (next o (bounded (length out.old))) }
    ensures by_index_2 { (o : Out (List ℕ)) → Ripe o message.now bytes.now p → out.new ≡ output (next o (bounded (length out.old))) out.old }
{
    match p {
        Plan::Make(c) => {
            let n = splice::size_after(c, message.len(), bytes.len());
            if 65536 < n {
                return Writing::Rejected(22, n as u32);
            }
            if out.len() < n {
                return Writing::Rejected(22, n as u32);
            }
            splice::put(c, message, bytes, out);
            Writing::Written(n as u32)
        }
        Plan::Stop(c, q) => Writing::Rejected(c as u32, q as u32),
    }
}

// Sets an optional: its bytes, as the reader lists them, are put in place of those that it has, or added. All else keeps its bytes and order.
// Wrong and ruled out: a call that loses an optional that the table does not know; one that leaves the slice's size as it was.
pub fn set(
    table: &[u8],
    top: u32,
    message: &[u8],
    member: u32,
    bytes: &[u8],
    out: &mut [u8],
) -> Writing
    ensures value { result ≡ writing_of (setting table.now top message.now member bytes.now (length out.old)) }
    ensures out_after { out.new ≡ output (setting table.now top message.now member bytes.now (length out.old)) out.old }
{
    let p = planning::plan(table, top, message, member, true, bytes);
    finished(p, message, bytes, out)
}

// The answer of `set` for an output of `room` bytes; no output is touched.
// Wrong and ruled out: an answer that is the same for every room; 22 at the room instead of the bytes needed.
pub fn set_answer(
    table: &[u8],
    top: u32,
    message: &[u8],
    member: u32,
    bytes: &[u8],
    room: usize,
) -> Writing
    ensures { result ≡ writing_of (setting table.now top message.now member bytes.now room) }
{
    let p = planning::plan(table, top, message, member, true, bytes);
    answered(p, message, bytes, room)
}

// Removes an optional. All else keeps its bytes and order.
// Wrong and ruled out: a call that leaves bit 2 set after a slice's last optional went; one that leaves its end marker.
pub fn remove(table: &[u8], top: u32, message: &[u8], member: u32, out: &mut [u8]) -> Writing
    ensures value { result ≡ writing_of (removing table.now top message.now member (length out.old)) }
    ensures out_after { out.new ≡ output (removing table.now top message.now member (length out.old)) out.old }
{
    let none = &message[..0];
    let p = planning::plan(table, top, message, member, false, none);
    finished(p, message, none, out)
}

// The answer of `remove` for an output of `room` bytes; no output is touched.
// Wrong and ruled out: an answer that is the same for every room; 22 at the room instead of the bytes needed.
pub fn remove_answer(table: &[u8], top: u32, message: &[u8], member: u32, room: usize) -> Writing
    ensures { result ≡ writing_of (removing table.now top message.now member room) }
{
    let none = &message[..0];
    let p = planning::plan(table, top, message, member, false, none);
    answered(p, message, none, room)
}
