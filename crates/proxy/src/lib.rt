// Proxies (document 01, "Proxies"), read from the start of the bytes given. One endpoint is a function of its own.
#![tactic(auto)]

ghost use Rattle.std.specs.Prelude.{◌≡◌};
ghost use Rattle.encoding.specs.Result.{times};
ghost use Rattle.encoding.specs.Proxy.{facets, endpoint, endpoints, reference, proxy};
ghost use Rattle.wire.specs.Steps.{step_of, sized_of};
ghost use Rattle.proxy.specs.Parts.{named, addresses, addressed, secured, mode};

use wire::{Counted, Refusal};

// The most bytes that a category without a name has.
const NO_NAME: usize = 0;

// An identity: its name, then its category; a category without a name is refused. Gives the length of the name.
pub fn identity(s: &[u8]) -> Result<Counted, Refusal>
    ensures { result ≡ sized_of (named s.now) }
{
    let name = text::read_string(s)?;
    let category = match text::read_string(&s[name.bytes..]) {
        Ok(category) => category,
        Err(refusal) => return Err(refusal.behind(name.bytes)),
    };
    if name.number == 0 {
        if NO_NAME < category.number {
            return Err(Refusal {
                number: 10,
                place: 0,
            });
        }
    }
    Ok(Counted {
        number: name.number,
        bytes: name.bytes + category.bytes,
    })
}

// Facets: a sequence of at most one string.
pub fn facets(s: &[u8]) -> Result<usize, Refusal>
    ensures { result ≡ step_of (facets s.now) }
{
    let size = wire::read_size(s)?;
    if 2 <= size.number {
        return Err(Refusal {
            number: 10,
            place: 0,
        });
    }
    if size.number == 0 {
        return Ok(size.bytes);
    }
    wire::later(size.bytes, text::read_text(&s[size.bytes..]))
}

// One endpoint: a short and an encapsulation, kept unopened.
pub fn endpoint(s: &[u8]) -> Result<usize, Refusal>
    ensures { result ≡ step_of (endpoint s.now) }
{
    if s.len() < 2 {
        return Err(Refusal {
            number: 4,
            place: 0,
        });
    }
    wire::later(2, wire::read_declared(&s[2..], 6, 4))
}

// n endpoints.
pub fn endpoint_list(s: &[u8], n: usize) -> Result<usize, Refusal>
    ensures { result ≡ step_of (times n endpoint s.now) }
{
    let mut at: usize = 0;
    for i in 0..n {
        at = wire::later(at, endpoint(&s[at..]))?;
    }
    Ok(at)
}

// n endpoints, or an adapter if n is 0.
fn addresses(s: &[u8], n: usize) -> Result<usize, Refusal>
    ensures { result ≡ step_of (addresses n s.now) }
{
    if n == 0 {
        return text::read_text(s);
    }
    endpoint_list(s, n)
}

// The number of endpoints, then the endpoints or an adapter.
fn endpoints(s: &[u8]) -> Result<usize, Refusal>
    ensures { result ≡ step_of (endpoints s.now) }
{
    let size = wire::read_size(s)?;
    wire::later(size.bytes, addresses(&s[size.bytes..], size.number))
}

// Protocol and encoding, then the endpoints; encoding 1.0, here and below where `old` says so, has the endpoints alone.
fn addressed(old: bool, s: &[u8]) -> Result<usize, Refusal>
    ensures { result ≡ step_of (addressed old s.now) }
{
    if old {
        return endpoints(s);
    }
    if s.len() < 4 {
        return Err(Refusal {
            number: 4,
            place: s.len(),
        });
    }
    wire::later(4, endpoints(&s[4..]))
}

// Secure, then those.
fn secured(old: bool, s: &[u8]) -> Result<usize, Refusal>
    ensures { result ≡ step_of (secured old s.now) }
{
    if s.len() < 1 {
        return Err(Refusal {
            number: 4,
            place: 0,
        });
    }
    if 2 <= wire::byte_at(s, 0) {
        return Err(Refusal {
            number: 8,
            place: 0,
        });
    }
    wire::later(1, addressed(old, &s[1..]))
}

// The mode, then all that follows it.
fn mode(old: bool, s: &[u8]) -> Result<usize, Refusal>
    ensures { result ≡ step_of (mode old s.now) }
{
    if s.len() < 1 {
        return Err(Refusal {
            number: 4,
            place: 0,
        });
    }
    if 5 <= wire::byte_at(s, 0) {
        return Err(Refusal {
            number: 10,
            place: 0,
        });
    }
    wire::later(1, secured(old, &s[1..]))
}

// All that follows an identity that is not nil: the facets, then the mode and the rest.
fn reference(old: bool, s: &[u8]) -> Result<usize, Refusal>
    ensures { result ≡ step_of (reference old s.now) }
{
    let n = facets(s)?;
    wire::later(n, mode(old, &s[n..]))
}

// A proxy: an identity, then a reference; an empty identity is the nil proxy and ends it.
pub fn proxy(old: bool, s: &[u8]) -> Result<usize, Refusal>
    ensures { result ≡ step_of (proxy old s.now) }
{
    let identity = identity(s)?;
    if identity.number == 0 {
        return Ok(identity.bytes);
    }
    wire::later(identity.bytes, reference(old, &s[identity.bytes..]))
}
