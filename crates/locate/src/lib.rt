// Where an endpoint is in its proxy (document 02, M-106): the general parameters and the endpoints before it are passed over. No public call asks anything of its input.
#![tactic(auto)]

ghost use Rattle.std.specs.Prelude.{◌≡◌, ◌≤◌, length, drop};
ghost use Rattle.encoding.specs.Result.{shift};
ghost use Rattle.wire.specs.Steps.{sized_of};
ghost use Rattle.locate.specs.Locate.{counted, referenced, generals, placed, spot_at, locating, spotted, located_of, located_within, with_located, RoomyAt};
ghost use Rattle.locate.specs.CountLater.{count_later, CountFits};

use wire::{Counted, Refusal};

// How many endpoints a proxy has, and place and length of the wanted one, both 0 if there is none; or a refusal's number and place.
// Stays: no Result, since located_numbers fixes these cases.
#[derive(Clone, Copy)]
pub enum Located {
    At(u32, u32, u32),
    Refused(u32, u32),
}

// How many endpoints there are, and place and length of the wanted one, both 0 if there is none.
#[derive(Clone, Copy)]
struct Spot {
    count: usize,
    place: usize,
    len: usize,
}

// What a reader of a number answers that begins n bytes later: the bytes taken, counted with those n, or its refusal.
fn later(n: usize, answer: Result<Counted, Refusal>) -> Result<Counted, Refusal>
    requires { CountFits n answer }
    ensures { result ≡ count_later n answer }
{
    match answer {
        Ok(counted) => Ok(Counted {
            bytes: n + counted.bytes,
            ..counted
        }),
        Err(refusal) => Err(refusal.behind(n)),
    }
}

// The number of endpoints, which follows mode, secure, protocol and encoding.
fn counted(s: &[u8]) -> Result<Counted, Refusal>
    ensures { result ≡ sized_of (counted s.now) }
{
    if s.len() < 6 {
        return Err(Refusal {
            number: 4,
            place: 0,
        });
    }
    later(6, wire::read_size(&s[6..]))
}

// The number of endpoints, which follows the facets and those.
fn referenced(s: &[u8]) -> Result<Counted, Refusal>
    ensures { result ≡ sized_of (referenced s.now) }
{
    let n = proxy::facets(s)?;
    later(n, counted(&s[n..]))
}

// The number of endpoints of a proxy, and the bytes before the first; nil has none.
fn generals(s: &[u8]) -> Result<Counted, Refusal>
    ensures { result ≡ sized_of (generals s.now) }
{
    let identity = proxy::identity(s)?;
    if identity.number == 0 {
        return Ok(identity);
    }
    later(identity.bytes, referenced(&s[identity.bytes..]))
}

// Endpoint i of the n that begin at a place.
fn passed(s: &[u8], i: usize, n: usize, at: usize) -> Result<Spot, Refusal>
    requires { at ≤ length s.now }
    ensures { result ≡ spotted (shift at (placed i n at (drop at s.now))) }
{
    let place = wire::later(at, proxy::endpoint_list(&s[at..], i))?;
    match proxy::endpoint(&s[place..]) {
        Ok(len) => Ok(Spot {
            count: n,
            place,
            len,
        }),
        Err(refusal) => Err(refusal.behind(place)),
    }
}

// Endpoint i of a proxy.
fn spot_at(s: &[u8], i: usize) -> Result<Spot, Refusal>
    ensures { result ≡ spotted (spot_at i s.now) }
{
    let endpoints = generals(s)?;
    if endpoints.number <= i {
        return Ok(Spot {
            count: endpoints.number,
            place: 0,
            len: 0,
        });
    }
    passed(s, i, endpoints.number, endpoints.bytes)
}

// Endpoint i of a proxy that is judged first: 3, the proxy's own refusals, 18 for bytes after it.
fn judged(proxy: &[u8], i: usize) -> Result<Spot, Refusal>
    ensures { result ≡ spotted (locating i proxy.now) }
{
    if 65536 < proxy.len() {
        return Err(Refusal {
            number: 3,
            place: 0,
        });
    }
    let n = proxy::proxy(false, proxy)?;
    if n < proxy.len() {
        return Err(Refusal {
            number: 18,
            place: n,
        });
    }
    spot_at(proxy, i)
}

// Where endpoint n of a proxy is, counted from 0, and how many endpoints there are. The proxy is of encoding 1.1 and is judged as the reader judges it; 18 for bytes after it.
// Wrong and ruled out: the place of the endpoint after it; a proxy that the reader refuses.
pub fn endpoint_at(proxy: &[u8], n: u32) -> Located
    ensures { result ≡ located_of (locating n proxy.now) }
{
    match judged(proxy, n as usize) {
        Ok(spot) => Located::At(spot.count as u32, spot.place as u32, spot.len as u32),
        Err(refusal) => Located::Refused(refusal.number as u32, refusal.place as u32),
    }
}

// An answer where `room` bytes are lent for its three numbers: 22 at 12, last.
fn within(o: Located, room: usize) -> Located
    ensures { result ≡ located_within room o }
{
    match o {
        Located::Refused(_, _) => o,
        _ => {
            if room < 12 {
                Located::Refused(22, 12)
            } else {
                o
            }
        }
    }
}

// The answer of `endpoint_at` where `room` bytes are lent for its three numbers.
// Wrong and ruled out: an answer that is the same for every room; 22 before the proxy's own refusals.
pub fn endpoint_at_answer(proxy: &[u8], n: u32, room: usize) -> Located
    ensures { result ≡ located_within room (located_of (locating n proxy.now)) }
{
    within(endpoint_at(proxy, n), room)
}

// Puts the three numbers of an answer at the start of the lent bytes; of a refusal none.
fn put_located(o: Located, numbers: &mut [u8])
    requires { RoomyAt o (length numbers.old) }
    ensures { numbers.new ≡ with_located o numbers.old }
{
    match o {
        Located::At(n, a, l) => {
            endpoint::put_numbers(numbers, &[n as usize, a as usize, l as usize]);
        }
        Located::Refused(_, _) => {}
    }
}

// Where endpoint n of a proxy is, with the number of endpoints, place and length in 12 lent bytes. Bytes after the numbers stay, and on a refusal all of them.
// Wrong and ruled out: place and length exchanged; numbers put on a refusal.
pub fn endpoint_at_numbers(proxy: &[u8], n: u32, numbers: &mut [u8]) -> Located
    ensures value { result ≡ located_within (length numbers.old) (located_of (locating n proxy.now)) }
    ensures numbers_after { numbers.new ≡ with_located (located_within (length numbers.old) (located_of (locating n proxy.now))) numbers.old }
{
    let o = endpoint_at_answer(proxy, n, numbers.len());
    put_located(o, numbers);
    o
}
