// The frost guard: a layer over the reader. It takes reports under a table of its own and says when the timer fires.
// Ticks are milliseconds and delays are whole seconds: two types, and one conversion between them.
// It calls the reader, and `wire` for numbers in bytes. The crate guard has the calls on a state of 32 bytes.
#![tactic(auto)]

ghost use Rattle.std.specs.Prelude.{◌≡◌, ◌+◌, leb};
ghost use Rattle.encoding.specs.Number.{negative};
ghost use Rattle.frost.specs.Frost.{raised, at_or_below, millis, start as start_of, present, lone_start, bad_state, report_of, report_form, freeze, fires_at, refuse, heard, told, report as reportBy};
ghost use Rattle.frost.specs.Code.{tick_in, guard_in, told_in, said_in, heard_in, form_of, judged_by, numbers_at, fields_at, lower_than};

use encoding::Reading;

// Milliseconds, as the pattern of a long.
#[derive(Clone, Copy)]
pub struct Millis(pub u64);

impl Millis {
    // Whether the long is negative.
    #[tactic(auto, unfolding(encoding::specs::Number::negative))]
    fn is_negative(self) -> bool
        ensures { result ≡ negative 8 self.0 }
    {
        9223372036854775808 <= self.0
    }
}

// Whole seconds, as the pattern of an int.
#[derive(Clone, Copy)]
pub struct Seconds(pub u32);

impl Seconds {
    // The same time in milliseconds: the one conversion.
    // Wrong and ruled out: seconds taken for milliseconds; a product that is cut to 32 bits.
    #[tactic(auto, unfolding(crate::specs::Frost::millis))]
    pub fn millis(self) -> Millis
        ensures { result.0 ≡ millis self.0 }
    {
        Millis(1000 * self.0 as u64)
    }

    // Whether the int is negative.
    // Stays: one function for ticks and delays would need a trait for one line, since `Millis` and `Seconds` are two types.
    #[tactic(auto, unfolding(encoding::specs::Number::negative))]
    fn is_negative(self) -> bool
        ensures { result ≡ negative 4 self.0 }
    {
        2147483648 <= self.0
    }
}

// What the guard keeps: the set point (the pattern of a short), the last tick, the start of the freeze, the delay; each but the first if there is one.
#[derive(Clone, Copy)]
pub struct Guard {
    pub set: u16,
    pub tick: Option<Millis>,
    pub start: Option<Millis>,
    pub delay: Option<Seconds>,
}

// The answer to a report: a refusal's number and place, or 0 and 0; whether the timer fires; and the guard after it.
// Stays: callers link `Told` and its fields, and `FrostTold` speaks of its numbers.
#[derive(Clone, Copy)]
pub struct Told {
    pub refusal: u32,
    pub place: u32,
    pub fires: bool,
    pub guard: Guard,
}

// What a message says: reading (the pattern of a short), tick and delay.
#[derive(Clone, Copy)]
struct Said {
    reading: u16,
    tick: Millis,
    delay: Seconds,
}

// A refusal's number and place.
#[derive(Clone, Copy)]
struct Refusal {
    number: u32,
    place: u32,
}

// The table of reports: a list of a short, an optional(7) long and an optional(8) int.
const TABLE: [u8; 84] = [
    70, 71, 84, 1, 0, 4, 0, 3, 0, 0, 0, 0, 2, 0, 0, 0, 0, 0, 0, 0, 0, 0, 0, 0, 4, 0, 0, 0, 0, 0, 0,
    0, 0, 0, 0, 0, 3, 0, 0, 0, 0, 0, 0, 0, 0, 0, 0, 0, 15, 0, 0, 0, 3, 0, 0, 0, 0, 0, 0, 0, 0, 0,
    0, 0, 0, 0, 0, 0, 1, 0, 1, 0, 7, 0, 0, 0, 2, 0, 1, 0, 8, 0, 0, 0,
];

// ---- the state

// Whether there is a last tick and it is later than `tick`.
#[tactic(auto, unfolding(crate::specs::Frost::present))]
fn is_later(last: Option<Millis>, tick: Millis) -> bool
    ensures { result ≡ present (lower_than tick.0) (tick_in last) }
{
    last.is_some_and(|t| tick.0 < t.0)
}

// Whether there is a start and no tick at or after it.
#[tactic(auto, unfolding(crate::specs::Frost::lone_start))]
fn is_lone(tick: Option<Millis>, start: Option<Millis>) -> bool
    ensures { result ≡ lone_start (tick_in tick) (tick_in start) }
{
    match (tick, start) {
        (_, None) => false,
        (None, Some(_)) => true,
        (Some(t), Some(s)) => t.0 < s.0,
    }
}

// Whether a state is refused by 52.
#[tactic(auto, unfolding(crate::specs::Frost::bad_state, crate::specs::Frost::present))]
fn is_bad(guard: Guard) -> bool
    ensures { result ≡ bad_state (guard_in guard) }
{
    guard.tick.is_some_and(|t| t.is_negative())
        || guard.start.is_some_and(|s| s.is_negative())
        || guard.delay.is_some_and(|d| d.is_negative())
        || is_lone(guard.tick, guard.start)
}

// ---- a report

// The report whose numbers are at three places of a message.
fn numbers_at(message: &[u8], reading: usize, tick: usize, delay: usize) -> Said
    ensures { heard (said_in result) ≡ numbers_at message.now reading tick delay }
{
    Said {
        reading: wire::short_at(message, reading) as u16,
        tick: Millis(wire::long_at(message, tick) as u64),
        delay: Seconds(wire::int_at(message, delay) as u32),
    }
}

// The report in three listed rows of an accepted message.
#[tactic(auto, unfolding(crate::specs::Code::fields_at))]
fn fields(message: &[u8], rows: &[u8]) -> Said
    ensures { heard (said_in result) ≡ fields_at message.now rows.now }
{
    let reading = wire::rows::row_at(rows, 0);
    let tick = wire::rows::row_at(rows, 1);
    let delay = wire::rows::row_at(rows, 2);
    numbers_at(message, reading.place, tick.place, delay.place)
}

// What a message says under the table: the reader's own refusals, then 42. A report has all three rows, or a field is missing.
// If no optional is skipped, the places are 6, 9 and 18. Reading them from the rows would wait for the copy of the rows.
#[tactic(auto, using(crate::proofs::FrostRows::report_partial, crate::proofs::FrostRows::report_plain, crate::proofs::FrostRows::report_full, crate::proofs::FrostRows::report_refused), unfolding(crate::specs::Frost::guard_table))]
fn hear(message: &[u8]) -> Result<Said, Refusal>
    ensures { heard_in result ≡ report_of message.now }
{
    let _count = prepare::byte_count(message);
    let table = TABLE;
    let mut rows = [0u8; 36];
    match reading::read(&table, 3, message, &mut rows) {
        Reading::Accepted(_, _, 3, 0, _) => Ok(numbers_at(message, 6, 9, 18)),
        Reading::Accepted(_, _, 3, _, _) => Ok(fields(message, &rows)),
        Reading::Accepted(_, _, _, _, _) => Err(Refusal {
            number: 42,
            place: 0,
        }),
        Reading::Refused(number, place) => Err(Refusal { number, place }),
    }
}

// What is wrong with a report after the last tick: 40 or 41.
#[tactic(auto, unfolding(crate::specs::Frost::report_form, encoding::specs::Result::first_of))]
fn form(last: Option<Millis>, report: Said) -> Result<(), Refusal>
    ensures { result ≡ form_of (report_form (tick_in last) (said_in report)) }
{
    if report.tick.is_negative() || is_later(last, report.tick) {
        return Err(Refusal {
            number: 40,
            place: 0,
        });
    }
    if report.delay.is_negative() {
        return Err(Refusal {
            number: 41,
            place: 0,
        });
    }
    Ok(())
}

// The report in a message; or the first refusal: 52 for the state, then those of the message, then those of the report.
#[tactic(auto, unfolding(crate::specs::Frost::judged_report))]
fn judged(guard: Guard, message: &[u8]) -> Result<Said, Refusal>
    ensures { heard_in result ≡ judged_by (guard_in guard) message.now }
{
    if is_bad(guard) {
        return Err(Refusal {
            number: 52,
            place: 0,
        });
    }
    let report = hear(message)?;
    form(guard.tick, report)?;
    Ok(report)
}

// ---- the answer

// The pattern of a short, raised so that the order is that of signed shorts.
#[tactic(auto, unfolding(crate::specs::Frost::raised))]
fn raise(x: u16) -> u16
    ensures { result ≡ raised 2 x }
{
    x.wrapping_add(32768)
}

// Whether a reading is at or below the set point, as signed shorts.
#[tactic(auto, unfolding(crate::specs::Frost::at_or_below))]
fn is_cold(set: u16, reading: u16) -> bool
    ensures { result ≡ at_or_below 2 reading set }
{
    raise(reading) <= raise(set)
}

// The start of the freeze after a report: a cold reading starts a freeze if none runs, a warm one ends it.
#[tactic(auto, unfolding(crate::specs::Frost::freeze, crate::specs::Frost::cold_at, crate::specs::Frost::or_now))]
fn frozen(set: u16, running: Option<Millis>, report: Said) -> Option<Millis>
    ensures { tick_in result ≡ freeze set (tick_in running) (said_in report) }
{
    if is_cold(set, report.reading) {
        Some(running.unwrap_or(report.tick))
    } else {
        None
    }
}

// Whether the delay has passed since the start. The difference is taken, not a sum: a sum could wrap.
fn has_waited(start: Millis, tick: Millis, delay: Seconds) -> bool
    ensures { result ≡ leb (start.0 + millis delay.0) tick.0 }
{
    start.0 <= tick.0 && delay.millis().0 <= tick.0 - start.0
}

// Whether a freeze runs and the delay has passed since its start.
#[tactic(auto, unfolding(crate::specs::Frost::fires_at, crate::specs::Frost::present))]
fn does_fire(running: Option<Millis>, report: Said) -> bool
    ensures { result ≡ fires_at (tick_in running) (said_in report) }
{
    running.is_some_and(|s| has_waited(s, report.tick, report.delay))
}

// A refused report: the state stays.
#[tactic(auto, unfolding(crate::specs::Frost::told))]
fn refused(guard: Guard, refusal: Refusal) -> Told
    ensures { told_in result ≡ told (guard_in guard) (refuse refusal.number refusal.place) }
{
    Told {
        refusal: refusal.number,
        place: refusal.place,
        fires: false,
        guard,
    }
}

// An accepted report.
#[tactic(auto, unfolding(crate::specs::Frost::told))]
fn accepted(guard: Guard, report: Said) -> Told
    ensures { told_in result ≡ told (guard_in guard) (heard (said_in report)) }
{
    let running = frozen(guard.set, guard.start, report);
    Told {
        refusal: 0,
        place: 0,
        fires: does_fire(running, report),
        guard: Guard {
            set: guard.set,
            tick: Some(report.tick),
            start: running,
            delay: Some(report.delay),
        },
    }
}

// The guard at the start, with its set point: no tick, freeze or delay yet.
// Wrong and ruled out: a guard that begins in a freeze; one with another set point.
#[tactic(auto, unfolding(crate::specs::Frost::start))]
pub fn start(set: u16) -> Guard
    ensures { guard_in result ≡ start_of set }
{
    Guard {
        set,
        tick: None,
        start: None,
        delay: None,
    }
}

// The answer to a report: 52 for the state, the reader's own refusals, 42, 40, 41; else whether the timer fires, and the guard after it.
// Wrong and ruled out: a tick taken as four bytes; seconds compared with milliseconds; a missing delay taken from the state; an equal tick refused.
#[tactic(auto, unfolding(crate::specs::Frost::report))]
pub fn report(guard: Guard, message: &[u8]) -> Told
    ensures { told_in result ≡ reportBy (guard_in guard) message.now }
{
    match judged(guard, message) {
        Ok(report) => accepted(guard, report),
        Err(refusal) => refused(guard, refusal),
    }
}
