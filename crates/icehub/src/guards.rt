// The frost guard's calls, on a state of 32 bytes.
ghost use Rattle.std.specs.Prelude.{◌≡◌, length};
ghost use Rattle.frost.specs.Frost.{started, reported, stored};
ghost use Rattle.icehub.specs.GuardNumbers.{start_number, guard_number};

// The state at the start, with a set point: 0 or 22, and the state at the start of the lent bytes.
// Wrong and ruled out: the refusal's place in place of its number; a call that leaves the bytes as they were.
#[unsafe(no_mangle)]
pub extern "C" fn icehub_guard_start(set: u16, state: &mut [u8]) -> u32
    ensures value { result ≡ start_number set (length state.old) 0 }
    ensures state_after { state.new ≡ stored (started set (length state.old)) state.old }
{
    let t = guard::start(set, state);
    t.refusal
}

// A report: 0 or the refusal number, and the state after it at the start of the lent bytes.
// Wrong and ruled out: the refusal's place in place of its number; a call that leaves the bytes as they were.
#[unsafe(no_mangle)]
pub extern "C" fn icehub_guard_report(state: &[u8], message: &[u8], next: &mut [u8]) -> u32
    ensures value { result ≡ guard_number state.now message.now (length next.old) 0 }
    ensures next_after { next.new ≡ stored (reported state.now message.now (length next.old)) next.old }
{
    guard::report_number(state, message, next, 0)
}

// The refusal's place; 0 if accepted.
// Wrong and ruled out: the refusal's number in its place; the place that another length of the lent bytes gives.
#[unsafe(no_mangle)]
pub extern "C" fn icehub_guard_place(state: &[u8], message: &[u8], room: usize) -> u32
    ensures { result ≡ guard_number state.now message.now room 1 }
{
    guard::answer_number(state, message, room, 1)
}

// 1 if the timer fires with the report.
// Wrong and ruled out: a timer that fires with a refused report; one that never fires.
#[unsafe(no_mangle)]
pub extern "C" fn icehub_guard_fires(state: &[u8], message: &[u8], room: usize) -> u32
    ensures { result ≡ guard_number state.now message.now room 2 }
{
    guard::answer_number(state, message, room, 2)
}
