// What is checked before a message: the table's rules, then 2, 23, 26 and 3. Every call that reads, views or writes a message begins with `prepare`, or with `onepass` and `after_rules`, and nothing after it checks the table again.
#![tactic(auto)]

ghost use Rattle.std.specs.Prelude.{◌≡◌, ◌&&◌, length, eqb};
ghost use Rattle.encoding.specs.Number.{Bytes};
ghost use Rattle.encoding.specs.Table.{types_at, kind, fine, faults};
ghost use Rattle.encoding.specs.Old.{no_old};
ghost use Rattle.encoding.specs.Message.{no_top};
ghost use Rattle.encoding.specs.Write.{no_format};
ghost use Rattle.prepare.specs.Preparing.{checks};

// The most bytes that a message or a buffer may have.
const MOST: usize = 65536;

// Nothing is refused before the message; or a refusal's number and place.
#[derive(Clone, Copy)]
pub enum Prepared {
    Ready,
    Refused(usize, usize),
}

// How many bytes there are; each is below 256.
pub fn byte_count(s: &[u8]) -> usize
    ensures { (result ≡ length s.now) × Bytes s.now }
{
    s.len()
}

// Type row `top`, of kind k, is not in the table or is below kind 13.
fn no_top(table: &[u8], top: usize, k: usize) -> bool
    requires { k ≡ kind table.now top }
    ensures { result ≡ no_top table.now top }
{
    if table::types(table) <= top {
        return true;
    }
    k < 13
}

// The format is neither 1 nor 2, or is 2 for a class: k is the top's kind.
fn no_format(k: usize, format: usize) -> bool
    ensures { result ≡ no_format k format }
{
    if format == 1 {
        return false;
    }
    if format != 2 {
        return true;
    }
    k == 14
}

// Encoding 1.0, format 2, where the types may have optionals. For another format the table is not searched.
fn no_old(table: &[u8], begin: usize, top: usize, format: usize) -> bool
    requires { begin ≡ types_at table.now }
    ensures { result ≡ eqb format 2 && no_old table.now top }
{
    if format != 2 {
        return false;
    }
    old::no_old(table, begin, top)
}

// What is checked after the rules of a table that breaks none: the first of 2, 23, 26 and 3 that applies to a message or buffer of `len` bytes.
pub fn after_rules(table: &[u8], begin: usize, top: usize, format: usize, len: usize) -> Prepared
    requires begin_value { begin ≡ types_at table.now }
    requires table_value { faults table.now ≡ fine }
    ensures { result ≡ checks table.now top format len }
{
    let k = table::kind(table, begin, top);
    if no_top(table, top, k) {
        return Prepared::Refused(2, 0);
    }
    if no_format(k, format) {
        return Prepared::Refused(23, 0);
    }
    if no_old(table, begin, top, format) {
        return Prepared::Refused(26, 0);
    }
    if MOST < len {
        return Prepared::Refused(3, 0);
    }
    Prepared::Ready
}

// Checks the table, the top, the format and the length of a message or buffer. A reader, which knows no format yet, passes 1: so 23 and 26 do not come.
// Wrong and ruled out: a call that lets format 0 pass; one that lets format 2 pass where the types may have optionals; one that refuses exactly 65,536 bytes.
pub fn prepare(table: &[u8], top: usize, format: usize, len: usize) -> Prepared
    ensures { result ≡ checks table.now top format len }
{
    match rules::check(table) {
        Ok(()) => after_rules(table, table::types_at(table), top, format, len),
        Err(refusal) => Prepared::Refused(refusal.number, refusal.place),
    }
}
