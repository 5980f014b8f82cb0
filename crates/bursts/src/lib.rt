// Satellite bursts of at most 340 bytes: the check of a plan, and a simple planner.
// Lent lists hold pairs of numbers: length and cabin of a waiting message, message number and burst number of an entry. Half a pair at the end is ignored.
// The check needs no memory of its own. While message numbers rise it looks at each entry once; if one does not rise, it looks through the entries before it.
#![tactic(auto)]

ghost use Rattle.std.specs.Prelude.{◌≡◌, suc, ◌-◌, ◌*◌, ◌/◌, ◌<◌, ◌≤◌, ◌++◌, length, drop, ◌==◌, nat_le};
ghost use Rattle.encoding.specs.Result.{pick};
ghost use Rattle.bursts.specs.Bursts.{most, waitings, entries as entries_of, cabin_of, checking, too_long, plan as plan_of, entry_numbers, planning, planned_of, plan_listed};
ghost use Rattle.bursts.specs.Running.{Known, clashing, clashes, rising, opening, packing, entering};

// The plan is accepted; or the place of its 46.
// Stays: callers link `Checked`, the answer of `check_plan`, and `PlanChecked` speaks of its numbers.
#[derive(Clone, Copy)]
pub enum Checked {
    Sound,
    Breaks(u64),
}

// The number of entries; or a refusal's number and place.
// Stays: callers link `Planned`, the answer of `plan`, and `PlanRefused` speaks of its numbers.
#[derive(Clone, Copy)]
pub enum Planned {
    Made(u64),
    Unplanned(u32, u64),
}

// A burst's number and the bytes that it has left.
#[derive(Clone, Copy)]
struct Burst {
    number: u64,
    left: u64,
}

// The bytes left in a burst, `step` bursts after one that has `left` bytes left: `left`, or a whole burst.
fn room(step: u64, left: u64) -> u64
    ensures { result ≡ pick (step == 0) left most }
{
    if step == 0 { left } else { 340 }
}

// What is left of a burst after a message, if the message can go there; the entry before is of burst `last`, which has `left` bytes left. A step to a lower burst wraps to a great number, so one test refuses both.
// Lengths are taken from what is left and never added, since a sum could wrap.
#[tactic(auto, unfolding(crate::specs::Running::packing, crate::specs::Running::may_follow, crate::specs::Running::packed))]
fn pack(last: u64, left: u64, burst: u64, length: u64) -> Option<u64>
    requires { last < 18446744073709551615 }
    ensures { result ≡ packing last left burst length }
{
    let step = burst.wrapping_sub(last);
    if 1 < step {
        return None;
    }
    room(step, left).checked_sub(length)
}

// Whether the first burst number is 0, if there is an entry.
#[tactic(auto, unfolding(crate::specs::Running::opening, crate::specs::Bursts::entries))]
fn opens(entries: &[u64]) -> bool
    ensures { result ≡ opening (entries_of entries.now) }
{
    entries.len() < 2 || entries[1] == 0
}

// The cabin of a message.
#[tactic(auto, using(crate::proofs::PairLaws::cabin_at))]
fn cabin(messages: &[u64], m: u64) -> u64
    requires { m < length messages.now / 2 }
    ensures { result ≡ cabin_of (waitings messages.now) m }
{
    messages[2 * m as usize + 1]
}

// Whether message `other` may not be before message m, whose cabin is `own`: it is m, or a later message of that cabin.
#[tactic(auto, unfolding(crate::specs::Running::clashing))]
fn is_clash(messages: &[u64], m: u64, own: u64, other: u64) -> bool
    requires other_in_bounds { other < length messages.now / 2 }
    requires own_value { own ≡ cabin_of (waitings messages.now) m }
    ensures { result ≡ clashing (waitings messages.now) m other }
{
    m <= other && cabin(messages, other) == own
}

// Whether one of the entries before may not be before an entry of message m.
#[tactic(auto, using(crate::proofs::Looking::looking_known, crate::proofs::Looking::looking_found, crate::proofs::Looking::looking_next, crate::proofs::Looking::looking_done))]
fn is_late(messages: &[u64], before: &[u64], m: u64) -> bool
    requires m_in_bounds { m < length messages.now / 2 }
    requires known { Known (waitings messages.now) (entries_of before.now) }
    ensures { result ≡ clashes (waitings messages.now) m (entries_of before.now) }
{
    let own = cabin(messages, m);
    for j in 0..before.len() / 2 {
        if is_clash(messages, m, own, before[2 * j]) {
            return true;
        }
    }
    false
}

// A number above message m and those of the entries before, which are below `above`; none if m may not come after one of them. Only an m below `above` is looked for among them.
#[tactic(auto, unfolding(crate::specs::Running::rising))]
fn rise(messages: &[u64], before: &[u64], above: u64, m: u64) -> Option<u64>
    requires m_in_bounds { m < length messages.now / 2 }
    requires known { Known (waitings messages.now) (entries_of before.now) }
    ensures { result ≡ rising (waitings messages.now) (entries_of before.now) above m }
{
    if above <= m {
        return Some(m + 1);
    }
    if is_late(messages, before, m) {
        None
    } else {
        Some(above)
    }
}

// The bytes left in the burst after message m, if it is a waiting one.
#[tactic(auto, using(crate::proofs::PairLaws::waitings_count, crate::proofs::PairLaws::length_at), unfolding(crate::specs::Running::entering))]
fn enter(messages: &[u64], last: u64, left: u64, m: u64, burst: u64) -> Option<u64>
    requires { last < 18446744073709551615 }
    ensures { result ≡ entering (waitings messages.now) last left m burst }
{
    if messages.len() as u64 / 2 <= m {
        return None;
    }
    pack(last, left, burst, messages[2 * m as usize])
}

// The check of a plan: accepted exactly if it has the form of a plan, each message is in it once, each burst has at most 340 bytes, and the messages of one cabin keep their order.
// Wrong and ruled out: a burst of 341 bytes accepted; a message twice; a cabin's order broken across bursts; a sum that wraps.
pub fn check_plan(messages: &[u64], entries: &[u64]) -> Checked
    ensures { result ≡ checking messages.now entries.now }
{
    if !opens(entries) {
        return Checked::Breaks(0);
    }
    let count = messages.len() as u64 / 2;
    let n = entries.len() / 2;
    let mut above: u64 = 0;
    let mut last: u64 = 0;
    let mut left: u64 = 340;
    for i in 0..n {
        let m = entries[2 * i];
        let burst = entries[2 * i + 1];
        let Some(rest) = enter(messages, last, left, m, burst) else {
            return Checked::Breaks(i as u64);
        };
        let Some(higher) = rise(messages, &entries[..2 * i], above, m) else {
            return Checked::Breaks(i as u64);
        };
        above = higher;
        last = burst;
        left = rest;
    }
    if (n as u64) < count {
        Checked::Breaks(n as u64)
    } else {
        Checked::Sound
    }
}

// The first message of more than 340 bytes, if there is one. It looks at two messages a turn: a loop over one is so short that its speed depends on the alignment of the code.
#[tactic(auto, using(crate::proofs::Looking::seeking_first, crate::proofs::Looking::seeking_second, crate::proofs::Looking::seeking_on, crate::proofs::Looking::seeking_last))]
fn too_long(messages: &[u64]) -> Option<u64>
    ensures { result ≡ too_long 0 (waitings messages.now) }
{
    let n = messages.len() / 2;
    for turn in 0..n / 2 {
        let i = 2 * turn;
        let next = i + 1;
        if 340 < messages[2 * i] {
            return Some(i as u64);
        }
        if 340 < messages[2 * next] {
            return Some(next as u64);
        }
    }
    if n % 2 == 1 && 340 < messages[2 * (n - 1)] {
        return Some(n as u64 - 1);
    }
    None
}

// The planner's answer for a lent list of `room` numbers.
// Wrong and ruled out: 19 before 45; the room counted in numbers for entries.
#[tactic(auto, using(crate::proofs::Putting::answer_long, crate::proofs::Putting::answer_made, crate::proofs::Putting::answer_short))]
pub fn answer(messages: &[u64], room: usize) -> Planned
    ensures { result ≡ planned_of (planning messages.now room) }
{
    let n = messages.len() / 2;
    if let Some(m) = too_long(messages) {
        return Planned::Unplanned(45, m);
    }
    if n <= room / 2 {
        Planned::Made(n as u64)
    } else {
        Planned::Unplanned(19, n as u64)
    }
}

// The burst that a message goes to: the last one if the message fits, else a new one. A message over 340 bytes leaves 0.
fn take_in(burst: u64, left: u64, length: u64) -> Burst
    requires { burst < 18446744073709551615 }
    ensures { (result.number ≡ pick (nat_le length left) burst (suc burst)) × (result.left ≡ pick (nat_le length left) left most - length) }
{
    if length <= left {
        return Burst {
            number: burst,
            left: left - length,
        };
    }
    // Stays: with `checked_sub` and `saturating_sub` the compiler makes no branch of this, and each message waits for the one before it.
    let left = if length <= 340 { 340 - length } else { 0 };
    Burst {
        number: burst + 1,
        left,
    }
}

// Writes the plan's entries: the messages in turn, a new burst only if the next does not fit.
#[tactic(auto, using(crate::proofs::Putting::putting_begin, crate::proofs::Putting::putting_next, crate::proofs::Putting::putting_done))]
fn fill(messages: &[u64], entries: &mut [u64])
    requires { length messages.now / 2 ≤ length entries.old / 2 }
    ensures { entries.new ≡ entry_numbers (plan_of (waitings messages.now)) ++ drop (2 * (length messages.now / 2)) entries.old }
{
    let n = messages.len() / 2;
    let mut last = Burst {
        number: 0,
        left: 340,
    };
    for i in 0..n {
        last = take_in(last.number, last.left, messages[2 * i]);
        entries[2 * i] = i as u64;
        entries[2 * i + 1] = last.number;
    }
}

// The planner: takes the messages in turn and opens a new burst only if the next does not fit. On a refusal the lent list stays as it was.
// Wrong and ruled out: an entry written into a list that is too short; a burst of 341 bytes made.
#[tactic(auto, using(crate::proofs::Putting::listed_room, crate::proofs::Putting::listed_plan, crate::proofs::Putting::listed_kept))]
pub fn plan(messages: &[u64], entries: &mut [u64]) -> Planned
    ensures value { result ≡ planned_of (planning messages.now (length entries.old)) }
    ensures entries_after { entries.new ≡ plan_listed (planning messages.now (length entries.old)) entries.old }
{
    let planned = answer(messages, entries.len());
    if let Planned::Made(_) = planned {
        fill(messages, entries);
    }
    planned
}
