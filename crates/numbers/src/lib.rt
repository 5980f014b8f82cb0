// The numbers of answers, one by one, as the calls of C return them.
#![tactic(auto)]

ghost use Rattle.std.specs.Prelude.{◌≡◌, get_or};
ghost use Rattle.encoding.specs.Table.{verdict_numbers};
ghost use Rattle.encoding.specs.Message.{reading_numbers};
ghost use Rattle.encoding.specs.Write.{writing_numbers};
ghost use Rattle.endpoint.specs.Endpoint.{opened_numbers};
ghost use Rattle.locate.specs.Locate.{located_numbers};
ghost use Rattle.bursts.specs.Bursts.{checked_numbers, planned_numbers};
ghost use Rattle.numbers.specs.ViewNumber.{view_number};

use bursts::{Checked, Planned};
use encoding::{Reading, Verdict, Writing};
use endpoint::Opened;
use locate::Located;
use view::View;

// The number of a verdict.
pub fn rule(v: Verdict) -> u32
    ensures { result ≡ get_or (verdict_numbers v) 0 0 }
{
    match v {
        Verdict::Sound => 0,
        Verdict::Broken(c, p) => c,
    }
}

// The place of a verdict.
pub fn rule_place(v: Verdict) -> u32
    ensures { result ≡ get_or (verdict_numbers v) 1 0 }
{
    match v {
        Verdict::Sound => 0,
        Verdict::Broken(c, p) => p,
    }
}

// Number i of an answer.
pub fn number(a: Reading, i: usize) -> u32
    ensures { result ≡ get_or (reading_numbers a) i 0 }
{
    match a {
        Reading::Accepted(first, format, n, optionals, slices) => match i {
            2 => first,
            3 => format,
            4 => n,
            5 => optionals,
            6 => slices,
            _ => 0,
        },
        Reading::Refused(c, p) => match i {
            0 => c,
            1 => p,
            _ => 0,
        },
    }
}

// The refusal number of the view's answer; 0 if it refuses nothing.
pub fn view_number(v: View) -> u32
    ensures { result ≡ view_number v }
{
    match v {
        View::Part(p, l) => 0,
        View::Fallback => 0,
        View::Nothing => 0,
        View::Refused(c, p) => c,
    }
}

// Number i of the writer's answer.
pub fn written_number(a: Writing, i: usize) -> u32
    ensures { result ≡ get_or (writing_numbers a) i 0 }
{
    match a {
        Writing::Written(n) => match i {
            2 => n,
            _ => 0,
        },
        Writing::Rejected(c, p) => match i {
            0 => c,
            1 => p,
            _ => 0,
        },
    }
}

// The refusal number of an answer to opening an endpoint; 0 if it refuses nothing.
pub fn opened(o: Opened) -> u32
    ensures { result ≡ get_or (opened_numbers o) 0 0 }
{
    match o {
        Opened::Is(k, a, n, p, t, c) => 0,
        Opened::Unopened(k) => 0,
        Opened::Refused(c, p) => c,
    }
}

// The place of its refusal.
pub fn opened_place(o: Opened) -> u32
    ensures { result ≡ get_or (opened_numbers o) 1 0 }
{
    match o {
        Opened::Is(k, a, n, p, t, c) => 0,
        Opened::Unopened(k) => 0,
        Opened::Refused(c, p) => p,
    }
}

// The refusal number of an answer to finding an endpoint; 0 if it refuses nothing.
pub fn located(o: Located) -> u32
    ensures { result ≡ get_or (located_numbers o) 0 0 }
{
    match o {
        Located::At(n, a, l) => 0,
        Located::Refused(c, p) => c,
    }
}

// The place of its refusal.
pub fn located_place(o: Located) -> u32
    ensures { result ≡ get_or (located_numbers o) 1 0 }
{
    match o {
        Located::At(n, a, l) => 0,
        Located::Refused(c, p) => p,
    }
}

// The refusal number of the check; 0 if the plan is accepted.
pub fn checked(c: Checked) -> u32
    ensures { result ≡ get_or (checked_numbers c) 0 0 }
{
    match c {
        Checked::Sound => 0,
        Checked::Breaks(p) => 46,
    }
}

// The place of the check's refusal.
pub fn checked_place(c: Checked) -> u64
    ensures { result ≡ get_or (checked_numbers c) 1 0 }
{
    match c {
        Checked::Sound => 0,
        Checked::Breaks(p) => p,
    }
}

// The refusal number of the planner; 0 if a plan is made.
pub fn planned(p: Planned) -> u32
    ensures { result ≡ get_or (planned_numbers p) 0 0 }
{
    match p {
        Planned::Made(n) => 0,
        Planned::Unplanned(c, q) => c,
    }
}

// The place of the planner's refusal.
pub fn planned_place(p: Planned) -> u64
    ensures { result ≡ get_or (planned_numbers p) 1 0 }
{
    match p {
        Planned::Made(n) => 0,
        Planned::Unplanned(c, q) => q,
    }
}
