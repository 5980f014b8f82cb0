// The members of one owner: its required members, and (optionals.rt) the next of its optionals.
#![tactic(auto)]

pub mod optionals;

ghost use Rattle.std.specs.Prelude.{◌≡◌, Ok, false, List, ℕ, ◌+◌, ◌*◌, ◌^◌, ◌≤◌, ◌<◌, length};
ghost use Rattle.encoding.specs.Result.{ok};
ghost use Rattle.encoding.specs.Table.{members, types_at, members_at, member_at, field, ty_of, required_members};
ghost use Rattle.table.specs.Rows.{Whole};
ghost use Rattle.encoding.specs.Value.{value};
ghost use Rattle.encoding.specs.Old.{type_as, members_as};
ghost use Rattle.encoding.specs.Optional.{Piece, requireds};
ghost use Rattle.encoding.specs.Message.{row_bytes, piece_rows};
ghost use Rattle.wire.specs.Put.{put};
ghost use Rattle.wire.specs.Steps.{step_of};
ghost use Rattle.shapes.specs.Shapes.{shapes_of};
ghost use Rattle.table.specs.Tags.{optional_start};
ghost use Rattle.level.specs.Fill.{fill};
ghost use Rattle.level.specs.FillLaws.{Covered};
ghost use Rattle.level.specs.Due.{Due};
ghost use Rattle.level.specs.Answers.{members_of, Simple, Logged, LastLog};

use wire::Refusal;

// Required members that were read: the bytes taken, the rows there are, and where the optional members begin.
#[derive(Clone, Copy)]
pub struct Members {
    pub bytes: usize,
    pub count: usize,
    pub optional: usize,
}

// How far required members were read that may be any bytes: the bytes taken, the rows there are, and the first row that was not read.
#[derive(Clone, Copy)]
pub struct Begun {
    pub bytes: usize,
    pub count: usize,
    pub row: usize,
}

// An optional that was read. Of a known one: its member row, its tag, where its bytes begin, the bytes taken. Of a skipped one: its tag, the bytes taken.
#[derive(Clone, Copy)]
pub enum Optional {
    Known {
        member: usize,
        tag: usize,
        start: usize,
        bytes: usize,
    },
    Skipped {
        tag: usize,
        bytes: usize,
    },
}

// Reads required member m, of type row t, and puts row k for it; its value is at place `at`. `begin` is where the type rows begin. Here and below, `old` says whether the encoding is 1.0.
fn put_member(
    table: &[u8],
    begin: usize,
    shapes: &[u8; 256],
    t: usize,
    s: &[u8],
    at: usize,
    k: usize,
    m: usize,
    out: &mut [u8],
    old: bool,
) -> Result<usize, Refusal>
    requires begin_value { begin ≡ types_at table.now }
    requires shapes_value { shapes.now ≡ shapes_of table.now }
    ensures value { result ≡ step_of (value (type_as old (ty_of table.now t)) s.now) }
    ensures out_len_unchanged { length out.new ≡ length out.old }
    ensures by_index { (n : ℕ) → result ≡ Ok n → out.new ≡ put (12 * k) (row_bytes (record { member = m; place = at; len = n })) out.old }
{
    let n = value::read_member(table, begin, shapes, t, s, old)?;
    wire::rows::put_row(out, k, m, at, n);
    Ok(n)
}

// Reads the required members of owner t, as declared, and puts a row for each, from row `count` on; `at` is the place of the first. Gives the first optional row too. Optional rows that follow each other are passed by one call.
pub fn required(
    table: &[u8],
    begin: usize,
    shapes: &[u8; 256],
    t: usize,
    s: &[u8],
    at: usize,
    count: usize,
    out: &mut [u8],
    old: bool,
) -> Result<Members, Refusal>
    requires begin_value { begin ≡ types_at table.now }
    requires shapes_value { shapes.now ≡ shapes_of table.now }
    requires s_bound { (at + length s.now < 2 ^ 63) × (count < 2 ^ 63) }
    ensures value { result ≡ members_of count (optional_start table.now t) (requireds (members_as old (required_members table.now t)) s.now) }
    ensures out_len_unchanged { length out.new ≡ length out.old }
    ensures out_after { (ps : List Piece) (n : ℕ) → requireds (members_as old (required_members table.now t)) s.now ≡ ok ps n → out.new ≡ fill count (piece_rows table.now t at ps) out.old }
{
    let all = table::members(table);
    let first = table::members_at(table, begin);
    let owner = table::type_row(table, begin, t);
    let end = owner.a + owner.b;
    let mut m = owner.a;
    let mut pos = 0;
    let mut k = count;
    let mut next = end;
    // Stays: no `for`, since optional rows are passed by as many as the table has one after another.
    while m < end {
        let row = table::member_row_from(table, first, m);
        if row.mark == 0 {
            let answer = put_member(
                table,
                begin,
                shapes,
                optional::type_of(all, m, row.of),
                &s[pos..],
                at + pos,
                k,
                m,
                out,
                old,
            );
            pos = wire::later(pos, answer)?;
            k += 1;
            m += 1;
        } else {
            next = next.min(m);
            m = table::chain::required_from(table, first, m + 1, end);
        }
    }
    Ok(Members {
        bytes: pos,
        count: k,
        optional: next,
    })
}

// The bytes of required member m, which may be any bytes, where no more are left; 0 if m is optional, or its type asks more of its bytes, or more are needed. Row m is one of the table's member rows, which begin at `first`.
fn simple(table: &[u8], first: usize, shapes: &[u8; 256], m: usize, left: usize) -> usize
    requires first_value { first ≡ members_at table.now }
    requires m_bound { m < members table.now }
    requires m_in_bounds { member_at table.now (m + 1) ≤ length table.now }
    requires shapes_value { shapes.now ≡ shapes_of table.now }
    ensures { 0 < result → Simple table.now m left result }
{
    let row = table::member_row_in(table, first, m);
    if row.mark != 0 {
        return 0;
    }
    let w = shapes::width(shapes, row.of);
    if left < w {
        return 0;
    }
    w
}

// Reads the required members of owner t, which takes member rows `from` to `end` - 1, as far as they may be any bytes; puts a row for each, from row `count` on; `at` is the place of the first. No call is in its loop.
pub fn simples(
    table: &[u8],
    first: usize,
    shapes: &[u8; 256],
    t: usize,
    from: usize,
    end: usize,
    s: &[u8],
    at: usize,
    count: usize,
    out: &mut [u8],
) -> Begun
    requires first_value { first ≡ members_at table.now }
    requires from_value { (from ≡ field table.now t 0) × (end ≡ field table.now t 0 + field table.now t 1) }
    requires from_bound { (from < 65536) × (end < from + 65536) }
    requires whole { 0 < end → Whole table.now end }
    requires shapes_value { shapes.now ≡ shapes_of table.now }
    requires s_bound { (at + length s.now < 2 ^ 63) × (count < 2 ^ 63) }
    ensures due { Due false table.now t at count s.now out.old result.row end result.bytes result.count end out.new }
    ensures covered { Covered count result.count out.new out.old }
{
    let mut pos = 0;
    let mut k = count;
    for m in from..end {
        let w = simple(table, first, shapes, m, s.len() - pos);
        if w == 0 {
            return Begun {
                bytes: pos,
                count: k,
                row: m,
            };
        }
        wire::rows::put_row(out, k, m, at + pos, w);
        k += 1;
        pos += w;
    }
    Begun {
        bytes: pos,
        count: k,
        row: end,
    }
}

// The bytes of required member m, if it is a sequence of values that may be any bytes; else 0. Row m is one of the table's member rows, which begin at `first`.
fn log(table: &[u8], begin: usize, first: usize, shapes: &[u8; 256], m: usize, s: &[u8]) -> usize
    requires begin_value { begin ≡ types_at table.now }
    requires first_value { first ≡ members_at table.now }
    requires m_bound { m < members table.now }
    requires m_in_bounds { member_at table.now (m + 1) ≤ length table.now }
    requires shapes_value { shapes.now ≡ shapes_of table.now }
    ensures { 0 < result → Logged table.now m s.now result }
{
    let row = table::member_row_in(table, first, m);
    if row.mark != 0 {
        return 0;
    }
    value::quick::sequence(table, begin, shapes, table::rows(table), row.of, s)
}

// The same of the last required member of rows up to `end` - 1; row k is put for it, and its value is at place `at`. Nothing is put if the answer is 0. The rows before `limit` lie inside the table.
// It is called at two places so that it is not inlined: the walk keeps its registers for lists of numbers.
pub fn last_log(
    table: &[u8],
    begin: usize,
    first: usize,
    limit: usize,
    shapes: &[u8; 256],
    m: usize,
    end: usize,
    s: &[u8],
    at: usize,
    k: usize,
    out: &mut [u8],
) -> usize
    requires begin_value { begin ≡ types_at table.now }
    requires first_value { (first ≡ members_at table.now) × (first < 1048576) }
    requires whole { (0 < limit → Whole table.now limit) × (limit ≤ end) }
    requires m_lt_limit { (m < limit) × (end ≤ 131072) }
    requires shapes_value { shapes.now ≡ shapes_of table.now }
    ensures { LastLog table.now m end s.now at k result out.old out.new }
{
    let n = log(table, begin, first, shapes, m, s);
    if n == 0 {
        return 0;
    }
    if table::chain::required_from(table, first, m + 1, end) != end {
        return 0;
    }
    wire::rows::put_row(out, k, m, at, n);
    n
}

// The same answer, taken apart and put together again, so that its numbers stay in registers.
fn same(answer: Result<Members, Refusal>) -> Result<Members, Refusal>
    ensures { result ≡ answer }
{
    match answer {
        Ok(
            Members {
                bytes,
                count,
                optional,
            },
        ) => Ok(Members {
            bytes,
            count,
            optional,
        }),
        Err(Refusal { number, place }) => Err(Refusal { number, place }),
    }
}

// As `required` in encoding 1.1, for an owner that takes member rows `from` to `end` - 1. Members that may be any bytes, and a last one that is a sequence of such values, are read without a call; if another one is required too, `required` begins anew. `limit` is `end`, or 0 if those rows are not all inside the table; its member rows begin at `first`.
// It is called at one place and inlined there: so a parameter list of numbers is read without a call.
// Wrong and ruled out: a required member that is declared after optional ones passed over.
pub fn required_simple(
    table: &[u8],
    begin: usize,
    first: usize,
    limit: usize,
    shapes: &[u8; 256],
    t: usize,
    from: usize,
    end: usize,
    s: &[u8],
    at: usize,
    count: usize,
    out: &mut [u8],
) -> Result<Members, Refusal>
    requires begin_value { begin ≡ types_at table.now }
    requires first_value { (first ≡ members_at table.now) × (first < 1048576) }
    requires whole { (0 < limit → Whole table.now limit) × (limit ≤ end) }
    requires from_value { (from ≡ field table.now t 0) × (end ≡ field table.now t 0 + field table.now t 1) }
    requires from_bound { (from < 65536) × (end < from + 65536) }
    requires shapes_value { shapes.now ≡ shapes_of table.now }
    requires s_bound { (at + length s.now < 2 ^ 63) × (count < 2 ^ 63) }
    ensures value { result ≡ members_of count (optional_start table.now t) (requireds (members_as false (required_members table.now t)) s.now) }
    ensures out_len_unchanged { length out.new ≡ length out.old }
    ensures out_after { (ps : List Piece) (n : ℕ) → requireds (members_as false (required_members table.now t)) s.now ≡ ok ps n → out.new ≡ fill count (piece_rows table.now t at ps) out.old }
{
    if limit < end {
        return same(required(table, begin, shapes, t, s, at, count, out, false));
    }
    let r = simples(table, first, shapes, t, from, end, s, at, count, out);
    let bytes = r.bytes;
    let k = r.count;
    let m = r.row;
    if table::chain::required_from(table, first, m, end) == end {
        return Ok(Members {
            bytes,
            count: k,
            optional: m,
        });
    }
    let n = last_log(
        table,
        begin,
        first,
        limit,
        shapes,
        m,
        end,
        &s[bytes..],
        at + bytes,
        k,
        out,
    );
    if n != 0 {
        return Ok(Members {
            bytes: bytes + n,
            count: k + 1,
            optional: m + 1,
        });
    }
    same(required(table, begin, shapes, t, s, at, count, out, false))
}
