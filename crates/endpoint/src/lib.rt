// One endpoint of a proxy, opened and written (document 02, M-106). No public call asks anything of its input; put_numbers alone asks for room.
// fields.rt reads what an endpoint of TCP, SSL and UDP holds, writes.rt puts it.
#![tactic(auto)]

pub mod fields;
pub mod writes;

ghost use Rattle.std.specs.Prelude.{◌≡◌, ◌*◌, ◌≤◌, ◌<◌, ◌++◌, length, drop};
ghost use Rattle.encoding.specs.Number.{Bytes};
ghost use Rattle.endpoint.specs.Endpoint.{open_endpoint, typed, opened_of, opened_within, with_opened};
ghost use Rattle.endpoint.specs.Parts.{int_bytes, whole, any_inside, address_inside, Roomy};

pub use writes::{endpoint_written, write_endpoint};

// Type, place and length of the host, port, timeout, compress; the type of an endpoint that is not opened; or a refusal's number and place.
// Stays: no Result and no enum of types, since opened_numbers fixes these cases and any short may be a type.
#[derive(Clone, Copy)]
pub enum Opened {
    Is(u32, u32, u32, u32, u32, u32),
    Unopened(u32),
    Refused(u32, u32),
}

// An endpoint of a type that is not opened: its size is judged, and 18 for bytes after it.
fn unopened(s: &[u8], kind: usize) -> Opened
    requires s_len_bound { length s.now ≤ 65536 }
    requires kind_bound { kind < 65536 }
    ensures { result ≡ opened_of (whole (any_inside kind) s.now) }
{
    match proxy::endpoint(s) {
        Ok(n) => {
            if n < s.len() {
                return Opened::Refused(18, n as u32);
            }
            Opened::Unopened(kind as u32)
        }
        Err(refusal) => Opened::Refused(refusal.number as u32, refusal.place as u32),
    }
}

// An endpoint of TCP, SSL or UDP.
fn dialled(s: &[u8], kind: usize) -> Opened
    requires bytes { Bytes s.now }
    requires in_bounds { 2 ≤ length s.now }
    requires s_len_bound { length s.now ≤ 65536 }
    requires kind_bound { kind < 65536 }
    ensures { result ≡ opened_of (whole (address_inside kind) s.now) }
{
    match fields::enclosed(&s[2..], kind) {
        Ok(fields) => {
            let end = 2 + fields.bytes;
            if end < s.len() {
                return Opened::Refused(18, end as u32);
            }
            let at = 8 + wire::size_len(fields.host);
            Opened::Is(
                kind as u32,
                at as u32,
                fields.host as u32,
                fields.port as u32,
                fields.timeout as u32,
                fields.compress as u32,
            )
        }
        Err(refusal) => Opened::Refused(refusal.number as u32, (2 + refusal.place) as u32),
    }
}

// Reads the type, then what the endpoint holds by its type.
fn typed(s: &[u8]) -> Opened
    requires bytes { Bytes s.now }
    requires s_len_bound { length s.now ≤ 65536 }
    ensures { result ≡ opened_of (typed s.now) }
{
    if s.len() < 2 {
        return Opened::Refused(4, 0);
    }
    let kind = wire::short_at(s, 0);
    if kind == 0 || 3 < kind {
        return unopened(s, kind);
    }
    dialled(s, kind)
}

// Opens one endpoint: type, host, port, timeout and compress of TCP, SSL and UDP; any other type is judged by its size and by what is after it, and answered as unopened.
// Wrong and ruled out: port 0 accepted; 18 judged before what the endpoint holds; the host's size counted into its place.
pub fn open(endpoint: &[u8]) -> Opened
    ensures { result ≡ opened_of (open_endpoint endpoint.now) }
{
    if 65536 < prepare::byte_count(endpoint) {
        return Opened::Refused(3, 0);
    }
    typed(endpoint)
}

// An answer where `room` bytes are lent for its seven numbers: 22 at 28, last.
fn within(o: Opened, room: usize) -> Opened
    ensures { result ≡ opened_within room o }
{
    match o {
        Opened::Refused(_, _) => o,
        _ => {
            if room < 28 {
                Opened::Refused(22, 28)
            } else {
                o
            }
        }
    }
}

// The answer of opening where `room` bytes are lent for its seven numbers.
// Wrong and ruled out: an answer that is the same for every room; 22 at the room instead of the bytes needed.
pub fn answer(endpoint: &[u8], room: usize) -> Opened
    ensures { result ≡ opened_within room (opened_of (open_endpoint endpoint.now)) }
{
    within(open(endpoint), room)
}

// Puts numbers, 32 bits each, one after another at the start of the lent bytes.
pub fn put_numbers(lent: &mut [u8], numbers: &[usize])
    requires { 4 * length numbers.now ≤ length lent.old }
    ensures { lent.new ≡ int_bytes numbers.now ++ drop (4 * length numbers.now) lent.old }
{
    for i in 0..numbers.len() {
        wire::put_number(lent, 4 * i, 4, numbers[i]);
    }
}

// Puts the seven numbers of an answer at the start of the lent bytes; of a refusal none.
fn put_opened(o: Opened, numbers: &mut [u8])
    requires { Roomy o (length numbers.old) }
    ensures { numbers.new ≡ with_opened o numbers.old }
{
    match o {
        Opened::Is(k, a, n, p, t, c) => {
            put_numbers(
                numbers,
                &[
                    1, k as usize, a as usize, n as usize, p as usize, t as usize, c as usize,
                ],
            );
        }
        Opened::Unopened(k) => {
            put_numbers(numbers, &[0, k as usize, 0, 0, 0, 0, 0]);
        }
        Opened::Refused(_, _) => {}
    }
}

// Opens one endpoint, with opened or not, type, host's place and length, port, timeout and compress in 28 lent bytes. Bytes after the numbers stay, and on a refusal all of them.
// Wrong and ruled out: numbers put on a refusal; the numbers of an endpoint that is not opened left as they were.
pub fn open_numbers(endpoint: &[u8], numbers: &mut [u8]) -> Opened
    ensures value { result ≡ opened_within (length numbers.old) (opened_of (open_endpoint endpoint.now)) }
    ensures numbers_after { numbers.new ≡ with_opened (opened_within (length numbers.old) (opened_of (open_endpoint endpoint.now))) numbers.old }
{
    let o = answer(endpoint, numbers.len());
    put_opened(o, numbers);
    o
}
