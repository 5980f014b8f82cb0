// The frost guard on a state of 32 bytes, for callers that keep it as bytes.
// Its bytes: set point (2), a mark each for tick, start and delay, three zero bytes, tick (8), start (8), delay (4), four zero bytes.
#![tactic(auto)]

ghost use Rattle.std.specs.Prelude.{◌≡◌, ◌++◌, ◌≤◌, ◌<◌, length, drop, get_or};
ghost use Rattle.frost.specs.Frost.{or_none, state_bytes, state_of, bounded, started, reported, stored, told_numbers};
ghost use Rattle.frost.specs.Code.{tick_in, delay_in, guard_in, told_in};
ghost use Rattle.guard.specs.Bytes.{loaded_in, head_of};

use frost::{Guard, Millis, Seconds, Told};

// ---- out of bytes

// The state that bytes hold, if they are a state. The zero bytes and the bytes of absent numbers are not judged.
#[tactic(auto, unfolding(frost::specs::Frost::state_of, frost::specs::Frost::no_state, frost::specs::Frost::marked))]
fn load(state: &[u8]) -> Option<Guard>
    ensures { loaded_in result ≡ state_of state.now }
{
    if state.len() != 32 {
        return None;
    }
    let tick = wire::byte_at(state, 2);
    let start = wire::byte_at(state, 3);
    let delay = wire::byte_at(state, 4);
    if 1 < tick || 1 < start || 1 < delay {
        return None;
    }
    Some(Guard {
        set: wire::short_at(state, 0) as u16,
        tick: (tick != 0).then_some(Millis(wire::long_at(state, 8) as u64)),
        start: (start != 0).then_some(Millis(wire::long_at(state, 16) as u64)),
        delay: (delay != 0).then_some(Seconds(wire::int_at(state, 24) as u32)),
    })
}

// ---- into bytes

// Set point and marks as one number of eight bytes. A mark is 1 for a number that is there.
#[tactic(auto, unfolding(frost::specs::Frost::mark_of, crate::specs::Bytes::head_of))]
fn head(guard: Guard) -> usize
    ensures { (result ≡ head_of (guard_in guard)) × (guard.set < 65536) }
{
    let tick = usize::from(guard.tick.is_some());
    let start = usize::from(guard.start.is_some());
    let delay = usize::from(guard.delay.is_some());
    guard.set as usize + 65536 * (tick + 256 * (start + 256 * delay))
}

// A tick as a number, 0 if there is none.
#[tactic(auto, unfolding(frost::specs::Frost::or_none))]
fn tick_number(tick: Option<Millis>) -> usize
    ensures { result ≡ or_none (tick_in tick) }
{
    tick.map_or(0, |m| m.0 as usize)
}

// A delay as a number, 0 if there is none.
// Stays: one function for ticks and delays would need a trait for one line, since `Millis` and `Seconds` are two types.
#[tactic(auto, unfolding(frost::specs::Frost::or_none))]
fn delay_number(delay: Option<Seconds>) -> usize
    ensures { (result ≡ or_none (delay_in delay)) × (result < 4294967296) }
{
    delay.map_or(0, |s| s.0 as usize)
}

// Puts a state at the start of the lent bytes.
fn put_state(out: &mut [u8], guard: Guard)
    requires { 32 ≤ length out.old }
    ensures { out.new ≡ state_bytes (guard_in guard) ++ drop 32 out.old }
{
    wire::put_number(out, 0, 8, head(guard));
    wire::put_number(out, 8, 8, tick_number(guard.tick));
    wire::put_number(out, 16, 8, tick_number(guard.start));
    wire::put_number(out, 24, 8, delay_number(guard.delay));
}

// The answer with `room` bytes lent for the state: 22 at 32 if they are fewer than 32, after every other refusal.
#[tactic(auto, unfolding(frost::specs::Frost::bounded))]
fn within(t: Told, room: usize) -> Told
    ensures { told_in result ≡ bounded room (told_in t) }
{
    if t.refusal != 0 || 32 <= room {
        return t;
    }
    Told {
        refusal: 22,
        place: 32,
        fires: false,
        guard: t.guard,
    }
}

// Puts the state of an accepted report at the start of the lent bytes.
#[tactic(auto, unfolding(frost::specs::Frost::stored))]
fn store(t: Told, next: &mut [u8])
    ensures { next.new ≡ stored (told_in t) next.old }
{
    if t.refusal == 0 && 32 <= next.len() {
        put_state(next, t.guard);
    }
}

// ---- the calls

// Puts the guard at the start, with a set point, into lent bytes.
// Wrong and ruled out: a state put into fewer than 32 bytes; one with another set point.
#[tactic(auto, unfolding(frost::specs::Frost::started))]
pub fn start(set: u16, state: &mut [u8]) -> Told
    ensures result_value { told_in result ≡ started set (length state.old) }
    ensures state_after { state.new ≡ stored (started set (length state.old)) state.old }
{
    let t = within(
        Told {
            refusal: 0,
            place: 0,
            fires: false,
            guard: frost::start(set),
        },
        state.len(),
    );
    store(t, state);
    t
}

// The answer to a report, with `room` bytes for the state after it.
// Wrong and ruled out: 22 before the reader's own refusals; the answer for another room.
#[tactic(auto, unfolding(frost::specs::Frost::reported, frost::specs::Frost::reported_from, frost::specs::Frost::told))]
pub fn answer(state: &[u8], message: &[u8], room: usize) -> Told
    ensures { told_in result ≡ reported state.now message.now room }
{
    match load(state) {
        Some(guard) => within(frost::report(guard, message), room),
        None => Told {
            refusal: 52,
            place: 0,
            fires: false,
            guard: frost::start(0),
        },
    }
}

// The answer to a report, and the state after it at the start of the lent bytes; on a refusal they stay.
// Wrong and ruled out: the old state put on a refusal; bytes beyond 32 changed.
pub fn report(state: &[u8], message: &[u8], next: &mut [u8]) -> Told
    ensures result_value { told_in result ≡ reported state.now message.now (length next.old) }
    ensures next_after { next.new ≡ stored (reported state.now message.now (length next.old)) next.old }
{
    let t = answer(state, message, next.len());
    store(t, next);
    t
}

// ---- the numbers of an answer

// Number i of the answer to a report: 0 refusal, 1 place, 2 whether the timer fires; and the state after it at the start of the lent bytes.
// The calls of C share this function, so `report` is inlined here and its answer does not go through memory. `&state[0..]` passes place and length in registers, which `state` does not.
// Wrong and ruled out: the place given for the refusal; a number of the answer for another room.
// Stays: i is a number, since `FrostTold` and the calls of C speak of the numbers of an answer by it.
#[tactic(auto, using(crate::proofs::Numbering::number_refusal, crate::proofs::Numbering::number_place, crate::proofs::Numbering::number_fires, crate::proofs::Numbering::number_waits, crate::proofs::Numbering::number_none, crate::proofs::Numbering::number_stored))]
pub fn report_number(state: &[u8], message: &[u8], next: &mut [u8], i: usize) -> u32
    ensures value { result ≡ get_or (told_numbers (reported state.now message.now (length next.old))) i 0 }
    ensures next_after { next.new ≡ stored (reported state.now message.now (length next.old)) next.old }
{
    let t = report(&state[0..], &message[0..], next);
    match i {
        0 => t.refusal,
        1 => t.place,
        2 => u32::from(t.fires),
        _ => 0,
    }
}

// Number i of the answer with `room` bytes for the state after it. The state is put into 32 bytes of the function's own.
// Wrong and ruled out: 22 for every room; the answer for 32 bytes whatever the room.
pub fn answer_number(state: &[u8], message: &[u8], room: usize, i: usize) -> u32
    ensures { result ≡ get_or (told_numbers (reported state.now message.now room)) i 0 }
{
    let mut next = [0u8; 32];
    report_number(state, message, &mut next[0..room.min(32)], i)
}
