// The calls for burst plans. Lists are 64-bit numbers in pairs; `room` is how many numbers the lent list has.
ghost use Rattle.std.specs.Prelude.{◌≡◌, length};
ghost use Rattle.bursts.specs.Bursts.{planning, plan_listed};
ghost use Rattle.icehub.specs.PlanNumbers.{check_number, plan_number};

// The check of a plan: 0 or 46.
// Wrong and ruled out: the place of 46 in place of its number; the entries taken for the messages.
#[unsafe(no_mangle)]
pub extern "C" fn icehub_check_plan(messages: &[u64], entries: &[u64]) -> u32
    ensures { result ≡ check_number messages.now entries.now 0 }
{
    numbers::checked(bursts::check_plan(messages, entries))
}

// The place of 46; 0 if the plan is accepted.
// Wrong and ruled out: 46 in its place; a place cut to 32 bits.
#[unsafe(no_mangle)]
pub extern "C" fn icehub_check_plan_place(messages: &[u64], entries: &[u64]) -> u64
    ensures { result ≡ check_number messages.now entries.now 1 }
{
    numbers::checked_place(bursts::check_plan(messages, entries))
}

// The planner: 0 or the refusal number, and the plan at the start of the lent list.
// Wrong and ruled out: the refusal's place in place of its number; a call that leaves the list as it was.
#[unsafe(no_mangle)]
pub extern "C" fn icehub_plan(messages: &[u64], entries: &mut [u64]) -> u32
    ensures value { result ≡ plan_number messages.now (length entries.old) 0 }
    ensures entries_after { entries.new ≡ plan_listed (planning messages.now (length entries.old)) entries.old }
{
    numbers::planned(bursts::plan(messages, entries))
}

// The place of the planner's refusal; 0 if a plan is made.
// Wrong and ruled out: the refusal's number in its place; the place that another list gives.
#[unsafe(no_mangle)]
pub extern "C" fn icehub_plan_place(messages: &[u64], room: usize) -> u64
    ensures { result ≡ plan_number messages.now room 1 }
{
    numbers::planned_place(bursts::answer(messages, room))
}
