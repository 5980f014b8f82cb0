// The member view: a member's bytes, as a part of the message or of a fallback, or where they are, in numbers. It asks nothing of its input.
#![tactic(auto)]

ghost use Rattle.std.specs.Prelude.{◌≡◌, map, ◌*◌, ◌≤◌, min, length};
ghost use Rattle.encoding.specs.Table.{range, members};
ghost use Rattle.encoding.specs.Write.{row_at};
ghost use Rattle.encoding.specs.View.{row_of, viewing, seen_bytes};
ghost use Rattle.wire.specs.Put.{put};
ghost use Rattle.view.specs.Views.{view_of, view_answer, view_within, view_bytes, with_view, PartInside};

use slices::Walk;

// What the view answers: a part of the message, by its place and length; the whole fallback; an empty part; or a refusal's number and place.
#[derive(Clone, Copy)]
pub enum View {
    Part(usize, usize),
    Fallback,
    Nothing,
    Refused(u32, u32),
}

// Finds the row of a member among the n rows of a list; the fallback if there is none.
fn seek(list: &[u8], n: usize, member: usize) -> View
    requires { n ≤ 1024 }
    ensures { result ≡ view_of (row_of member (map (row_at list.now) (range 0 n))) }
{
    let mut i = 0;
    while i < n {
        let at = 12 * i;
        if member == wire::int_at(list, at) {
            return View::Part(wire::int_at(list, at + 4), wire::int_at(list, at + 8));
        }
        i += 1;
    }
    View::Fallback
}

// Decides what the view answers, by a walk into a list that holds a row for each member of the table, or 1,024; a part lies in the message.
fn look_by(table: &[u8], top: usize, message: &[u8], member: usize, list: &mut [u8]) -> View
    requires { 12 * min (members table.now) 1024 ≤ length list.old }
    ensures value { result ≡ view_answer table.now top message.now member }
    ensures part_inside { PartInside (length message.now) result }
{
    let mut shapes = [10u8; 256];
    let w = reading::walk(table, top, message, false, 0, &mut shapes, list);
    match w {
        Walk::Done(first, format, k, optionals, slices, end) => {
            if table::chain::of_chain(table, first, member) {
                seek(list, k, member)
            } else {
                View::Nothing
            }
        }
        Walk::Stop(c, q) => View::Refused(reading::low(c), reading::low(q)),
    }
}

// The same, by a list of 32, 128 or 1,024 rows: a longer list takes longer to clear.
fn look(table: &[u8], top: usize, message: &[u8], member: usize) -> View
    ensures value { result ≡ view_answer table.now top message.now member }
    ensures part_inside { PartInside (length message.now) result }
{
    let n = table::members(table);
    if n <= 32 {
        let mut few = [0u8; 384];
        return look_by(table, top, message, member, &mut few);
    }
    if n <= 128 {
        let mut more = [0u8; 1536];
        return look_by(table, top, message, member, &mut more);
    }
    let mut most = [0u8; 12288];
    look_by(table, top, message, member, &mut most)
}

// The bytes that the view returns, with one lifetime for message and fallback.
fn seen<'a, 't>(
    table: &'t [u8],
    top: u32,
    message: &'a [u8],
    row: u32,
    fallback: &'a [u8],
) -> &'a [u8]
    ensures { result.now ≡ seen_bytes message.now fallback.now (viewing table.now top message.now row) }
{
    let v = look(table, top as usize, message, row as usize);
    match v {
        View::Part(p, n) => {
            let e = p + n;
            &message[p..e]
        }
        View::Fallback => fallback,
        View::Nothing => &fallback[..0],
        View::Refused(c, p) => &fallback[..0],
    }
}

// The member view: the member's part of the message; the whole fallback if the accepted message lacks the member; else an empty slice.
// Message and fallback each have a lifetime of their own; the result lasts no longer than either.
// The contract gives the content of the result, so it leaves open which slice an empty result is: an empty part of the message, of the fallback, or the empty fallback.
// Wrong and ruled out: a view that returns the fallback on a refusal; one that returns the part one byte short.
pub fn member<'r, 'm: 'r, 'f: 'r, 't>(
    table: &'t [u8],
    top: u32,
    message: &'m [u8],
    row: u32,
    fallback: &'f [u8],
) -> &'r [u8]
    ensures { result.now ≡ seen_bytes message.now fallback.now (viewing table.now top message.now row) }
{
    let message: &'r [u8] = message;
    let fallback: &'r [u8] = fallback;
    seen(table, top, message, row, fallback)
}

// The answer where n bytes are lent for its numbers: 22 at 12 where they are too few, after every other refusal.
fn within(v: View, n: usize) -> View
    ensures { result ≡ view_within n v }
{
    if 12 <= n {
        return v;
    }
    match v {
        View::Part(p, l) => View::Refused(22, 12),
        View::Fallback => View::Refused(22, 12),
        View::Nothing => View::Refused(22, 12),
        View::Refused(c, p) => View::Refused(c, p),
    }
}

// Puts origin, place and length at the start of the lent bytes; of a refusal none.
fn put_view(v: View, numbers: &mut [u8])
    ensures { numbers.new ≡ put 0 (view_bytes v) numbers.old }
{
    match v {
        View::Part(p, l) => {
            wire::rows::put_row(numbers, 0, 1, p, l);
        }
        View::Fallback => {
            wire::rows::put_row(numbers, 0, 2, 0, 0);
        }
        View::Nothing => {
            wire::rows::put_row(numbers, 0, 0, 0, 0);
        }
        View::Refused(c, p) => {}
    }
}

// The member view in numbers: where the bytes are that `member` returns, in 12 lent bytes: origin (0 an empty part, 1 the message, 2 the fallback), place and length in the message. On a refusal no lent byte changes.
// Wrong and ruled out: a view that gives the fallback as an empty part; one that refuses bytes that are too few before the message's own refusal.
pub fn member_numbers(table: &[u8], top: u32, message: &[u8], row: u32, numbers: &mut [u8]) -> View
    ensures value { result ≡ view_within (length numbers.old) (view_answer table.now top message.now row) }
    ensures numbers_after { numbers.new ≡ with_view (view_within (length numbers.old) (view_answer table.now top message.now row)) numbers.old }
{
    let v = within(
        look(table, top as usize, message, row as usize),
        numbers.len(),
    );
    put_view(v, numbers);
    v
}
