// The reader's calls: the answer, and the rows in a lent list. `read`, `answer` and `read_numbers` ask nothing of their input.
// `walk` is called with `ready` by a caller that has checked the table, the top and the length, and has the shapes: so none is checked or computed twice.
#![tactic(auto)]

ghost use Rattle.std.specs.Prelude.{◌≡◌, ◌/◌, ◌≤◌, min, length};
ghost use Rattle.encoding.specs.Table.{members, types_at};
ghost use Rattle.encoding.specs.Message.{reading, listed, reading_of};
ghost use Rattle.prepare.specs.Preparing.{checks};
ghost use Rattle.prepare.specs.declared.Prepared.TheVariants.{Ready};
ghost use Rattle.shapes.specs.Shapes.{shapes_of};
ghost use Rattle.reader.specs.OldUse.{OldUse};
ghost use Rattle.reading.specs.Told.{Lent, Walked, Listed, low, told_of, row_count, with_rows};
ghost use Rattle.reading.specs.Numbers.{reading_numbered, short_of, five_numbers, with_numbers, FewSkipped};

use encoding::Reading;
use prepare::Prepared;
use slices::Walk;

// The low 32 bits.
pub fn low(x: usize) -> u32
    ensures { result ≡ low x }
{
    (x & 4294967295) as u32
}

// The answer of a walk where the list has room for k rows: 19 last.
fn told(w: Walk, k: usize) -> Reading
    ensures { result ≡ told_of k w }
{
    match w {
        Walk::Done(first, format, n, optionals, slices, end) => {
            if n <= k {
                Reading::Accepted(low(first), low(format), low(n), low(optionals), low(slices))
            } else {
                Reading::Refused(19, low(n))
            }
        }
        Walk::Stop(c, p) => Reading::Refused(low(c), low(p)),
    }
}

// The rows of an accepted message; none of a refused one.
fn row_count(w: Walk) -> usize
    ensures { result ≡ row_count w }
{
    match w {
        Walk::Done(first, format, n, optionals, slices, end) => n,
        Walk::Stop(c, p) => 0,
    }
}

// The same walk. The rows of an accepted message are copied from the call's own list to the lent one, if that holds them all.
fn copied(w: Walk, own: &[u8], rows: &mut [u8]) -> Walk
    ensures value { result ≡ w }
    ensures rows_after { rows.new ≡ with_rows w own.now rows.old }
{
    let count = row_count(w);
    if count <= rows.len() / 12 {
        wire::put_part(rows, 0, own, 0, 12 * count);
    }
    w
}

// What `prepare` finds; if it refuses nothing, the shapes are filled. Where the caller has both, nothing is done.
// Usual tables are judged, and their shapes filled, in one pass; others by `prepare` and `shapes`.
fn prepared(table: &[u8], top: usize, len: usize, ready: bool, shapes: &mut [u8; 256]) -> Prepared
    requires { Lent table.now top len ready shapes.old }
    ensures value { result ≡ checks table.now top 1 len }
    ensures shapes_after { checks table.now top 1 len ≡ Ready → shapes.new ≡ shapes_of table.now }
{
    if ready {
        return Prepared::Ready;
    }
    let begin = table::types_at(table);
    if onepass::fill(table, begin, shapes) {
        return prepare::after_rules(table, begin, top, 1, len);
    }
    let p = prepare::prepare(table, top, 1, len);
    match p {
        Prepared::Refused(c, q) => Prepared::Refused(c, q),
        Prepared::Ready => {
            shapes::fill(table, begin, shapes);
            Prepared::Ready
        }
    }
}

// What is known of encoding 1.0 before the message is walked: what the caller says; if that is 0 and the message is of 1.0, 1 if no member of the table is optional. A message of 1.1 costs one comparison. `begin` is where the type rows begin.
// Wrong and ruled out: 1 where a member of the top is optional.
fn known_old(table: &[u8], begin: usize, top: usize, old_use: usize, message: &[u8]) -> usize
    requires begin_value { begin ≡ types_at table.now }
    requires old_use { OldUse table.now top old_use }
    requires message_value { checks table.now top 1 (length message.now) ≡ Ready }
    ensures { OldUse table.now top result }
{
    if wire::byte_at(message, 5) != 0 {
        return old_use;
    }
    if old_use != 0 {
        return old_use;
    }
    let first = table::members_at(table, begin);
    if table::chain::has_optional(table, first, 0, table::members(table)) {
        return 0;
    }
    1
}

// Checks and walks.
fn checked(
    table: &[u8],
    top: usize,
    message: &[u8],
    ready: bool,
    old_use: usize,
    shapes: &mut [u8; 256],
    out: &mut [u8],
) -> Walk
    requires lent { Lent table.now top (length message.now) ready shapes.old }
    requires old_use { OldUse table.now top old_use }
    ensures walked { Walked table.now top message.now result out.old out.new }
    ensures shapes_after { checks table.now top 1 (length message.now) ≡ Ready → shapes.new ≡ shapes_of table.now }
{
    prepare::byte_count(message);
    let p = prepared(table, top, message.len(), ready, shapes);
    match p {
        Prepared::Refused(c, q) => Walk::Stop(c, q),
        Prepared::Ready => {
            let begin = table::types_at(table);
            let known = known_old(table, begin, top, old_use, message);
            reader::body(table, begin, shapes, top, known, message, out)
        }
    }
}

// The checks, then the walk over the message. It puts the rows of an accepted message into the list, those that fit. The caller lends an array for the shapes; where the checks refuse nothing it holds them afterwards.
// `ready` says that it holds them already, and that the checks are known to refuse nothing: both are left out. `old_use` says what is known of encoding 1.0, as `judge_old` of `reader` gives it, or 0: 26 is then judged only for a message of 1.0. So whoever walks more than once calls this function too, and the walk itself, called at one place, is inlined here.
// The slices are passed as new parts: passing them unchanged causes a store-forwarding stall.
pub fn walk(
    table: &[u8],
    top: usize,
    message: &[u8],
    ready: bool,
    old_use: usize,
    shapes: &mut [u8; 256],
    out: &mut [u8],
) -> Walk
    requires lent { Lent table.now top (length message.now) ready shapes.old }
    requires old_use { OldUse table.now top old_use }
    ensures walked { Walked table.now top message.now result out.old out.new }
    ensures shapes_after { checks table.now top 1 (length message.now) ≡ Ready → shapes.new ≡ shapes_of table.now }
{
    checked(&table[0..], top, &message[0..], ready, old_use, shapes, out)
}

// At least as many rows as a message can have and a list with room for k rows can hold: a message has no more rows than its table has members.
// A short list is not compared with the table: so the compiler sees at a caller's list of known length which way is taken.
fn most_rows(table: &[u8], k: usize) -> usize
    ensures { min k (members table.now) ≤ result }
{
    if k <= 5 {
        return k;
    }
    k.min(table::members(table))
}

// Walks into a list of the call's own and copies the rows, since the lent list must stay on a refusal. At most 5 rows can be copied: so short a list is cleared by four stores.
fn walk_few(table: &[u8], top: usize, message: &[u8], rows: &mut [u8]) -> Walk
    requires { min (length rows.old / 12) (members table.now) ≤ 5 }
    ensures { Listed table.now top message.now result rows.old rows.new }
{
    let mut shapes = [10u8; 256];
    let mut few = [0u8; 60];
    let w = walk(table, top, message, false, 0, &mut shapes, &mut few);
    copied(w, &few, rows)
}

// The same for at most 21 rows: their list is cleared by sixteen stores, without a call.
fn walk_some(table: &[u8], top: usize, message: &[u8], rows: &mut [u8]) -> Walk
    requires { min (length rows.old / 12) (members table.now) ≤ 21 }
    ensures { Listed table.now top message.now result rows.old rows.new }
{
    let mut shapes = [10u8; 256];
    let mut some = [0u8; 252];
    let w = walk(table, top, message, false, 0, &mut shapes, &mut some);
    copied(w, &some, rows)
}

// The same for at most 128 rows.
fn walk_hundred(table: &[u8], top: usize, message: &[u8], rows: &mut [u8]) -> Walk
    requires { min (length rows.old / 12) (members table.now) ≤ 128 }
    ensures { Listed table.now top message.now result rows.old rows.new }
{
    let mut shapes = [10u8; 256];
    let mut more = [0u8; 1536];
    let w = walk(table, top, message, false, 0, &mut shapes, &mut more);
    copied(w, &more, rows)
}

// The same for at most 512 rows.
fn walk_many(table: &[u8], top: usize, message: &[u8], rows: &mut [u8]) -> Walk
    requires { min (length rows.old / 12) (members table.now) ≤ 512 }
    ensures { Listed table.now top message.now result rows.old rows.new }
{
    let mut shapes = [10u8; 256];
    let mut many = [0u8; 6144];
    let w = walk(table, top, message, false, 0, &mut shapes, &mut many);
    copied(w, &many, rows)
}

// The same for any number of rows: no table has more than 1,024 members.
fn walk_more(table: &[u8], top: usize, message: &[u8], rows: &mut [u8]) -> Walk
    ensures { Listed table.now top message.now result rows.old rows.new }
{
    let mut shapes = [10u8; 256];
    let mut all = [0u8; 12288];
    let w = walk(table, top, message, false, 0, &mut shapes, &mut all);
    copied(w, &all, rows)
}

// The same for at most `most` rows. The longer lists take up to 12 KB of stack: so they are in a function of their own, which is too long to be inlined. Table and message are passed to it as new parts: else every read would store where they are.
fn walk_long(table: &[u8], top: usize, message: &[u8], most: usize, rows: &mut [u8]) -> Walk
    requires { min (length rows.old / 12) (members table.now) ≤ most }
    ensures { Listed table.now top message.now result rows.old rows.new }
{
    if most <= 512 {
        return walk_many(table, top, message, rows);
    }
    walk_more(table, top, message, rows)
}

// The reader: the answer, and the rows in the lent list, 12 bytes each; bytes after the rows stay, and on a refusal all of them.
// Wrong and ruled out: a reader that writes the list on a refusal; one that answers the same for every list.
pub fn read(table: &[u8], top: u32, message: &[u8], rows: &mut [u8]) -> Reading
    ensures value { result ≡ reading_of (reading table.now top message.now (length rows.old)) }
    ensures rows_after { rows.new ≡ listed (reading table.now top message.now (length rows.old)) rows.old }
{
    let k = rows.len() / 12;
    let most = most_rows(table, k);
    if most <= 5 {
        return told(walk_few(table, top as usize, message, rows), k);
    }
    if most <= 21 {
        return told(walk_some(table, top as usize, message, rows), k);
    }
    if most <= 128 {
        return told(walk_hundred(table, top as usize, message, rows), k);
    }
    told(
        walk_long(&table[0..], top as usize, &message[0..], most, rows),
        k,
    )
}

// The reader's answer with a lent list of `room` bytes; no list is touched.
// Wrong and ruled out: an answer that is the same for every room; one that exchanges optionals and slices skipped.
pub fn answer(table: &[u8], top: u32, message: &[u8], room: usize) -> Reading
    ensures { result ≡ reading_of (reading table.now top message.now room) }
{
    let mut shapes = [10u8; 256];
    let mut none = [0u8; 12];
    let w = walk(
        table,
        top as usize,
        message,
        false,
        0,
        &mut shapes,
        &mut none,
    );
    told(w, room / 12)
}

// The answer where no bytes are lent that hold the five numbers: 22 at 20, after every other refusal.
fn short(a: Reading) -> Reading
    ensures { result ≡ short_of a }
{
    match a {
        Reading::Accepted(first, format, n, optionals, slices) => Reading::Refused(22, 20),
        Reading::Refused(c, p) => Reading::Refused(c, p),
    }
}

// Puts five numbers into their own 20 bytes, whose length is known where they are put: no further test is needed.
fn put_five(
    five: &mut [u8],
    first: usize,
    format: usize,
    count: usize,
    optionals: usize,
    slices: usize,
)
    requires { length five.old ≡ 20 }
    ensures { five.new ≡ five_numbers first format count optionals slices }
{
    wire::put_number(five, 0, 4, first);
    wire::put_number(five, 4, 4, format);
    wire::put_number(five, 8, 4, count);
    wire::put_number(five, 12, 4, optionals);
    wire::put_number(five, 16, 4, slices);
}

// Puts the five numbers of an accepted message at the start of the lent bytes; of a refused one none.
fn put_numbers(a: Reading, numbers: &mut [u8])
    requires { 20 ≤ length numbers.old }
    ensures { numbers.new ≡ with_numbers a numbers.old }
{
    match a {
        Reading::Accepted(first, format, n, optionals, slices) => {
            put_five(
                &mut numbers[0..20],
                first as usize,
                format as usize,
                n as usize,
                optionals as usize,
                slices as usize,
            );
        }
        Reading::Refused(c, p) => {}
    }
}

// The same walk, which skips few optionals. Their number is compared with the most that four bytes hold: without this it would be loaded together with the slices skipped, right after the walk stored both one by one, which waits for the stores.
fn few_skipped(w: Walk) -> Walk
    requires { FewSkipped w }
    ensures { result ≡ w }
{
    match w {
        Walk::Done(first, format, n, optionals, slices, end) => {
            let skipped = optionals.min(4294967295);
            Walk::Done(first, format, n, skipped, slices, end)
        }
        Walk::Stop(c, p) => Walk::Stop(c, p),
    }
}

// The answer of a walk, with its five numbers put.
fn numbered(w: Walk, k: usize, numbers: &mut [u8]) -> Reading
    requires in_bounds { 20 ≤ length numbers.old }
    requires few_skipped { FewSkipped w }
    ensures value { result ≡ told_of k w }
    ensures numbers_after { numbers.new ≡ with_numbers result numbers.old }
{
    let a = told(few_skipped(w), k);
    put_numbers(a, numbers);
    a
}

// The reader, with the five numbers of an accepted message in 20 lent bytes: one read. Bytes after the rows and after the numbers stay, and on a refusal all of them.
// Wrong and ruled out: a reader that exchanges optionals and slices skipped; one that lists the rows where the bytes for the numbers are too few.
pub fn read_numbers(
    table: &[u8],
    top: u32,
    message: &[u8],
    rows: &mut [u8],
    numbers: &mut [u8],
) -> Reading
    ensures value { result ≡ reading_of (reading_numbered table.now top message.now (length rows.old) (length numbers.old)) }
    ensures rows_after { rows.new ≡ listed (reading_numbered table.now top message.now (length rows.old) (length numbers.old)) rows.old }
    ensures numbers_after { numbers.new ≡ with_numbers (reading_of (reading_numbered table.now top message.now (length rows.old) (length numbers.old))) numbers.old }
{
    if numbers.len() < 20 {
        return short(answer(table, top, message, rows.len()));
    }
    let room = rows.len() / 12;
    let most = most_rows(table, room);
    if most <= 5 {
        return numbered(walk_few(table, top as usize, message, rows), room, numbers);
    }
    if most <= 21 {
        return numbered(walk_some(table, top as usize, message, rows), room, numbers);
    }
    if most <= 128 {
        return numbered(
            walk_hundred(table, top as usize, message, rows),
            room,
            numbers,
        );
    }
    numbered(
        walk_long(&table[0..], top as usize, &message[0..], most, rows),
        room,
        numbers,
    )
}
