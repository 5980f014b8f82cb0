// The fields of an address: host, port, timeout, compress; and the version and the encapsulation around them. Each is read from the start of the bytes given.
ghost use Rattle.std.specs.Prelude.{◌≡◌};
ghost use Rattle.encoding.specs.Result.{inside};
ghost use Rattle.encoding.specs.Number.{declared};
ghost use Rattle.wire.specs.Steps.{sized_of};
ghost use Rattle.endpoint.specs.Endpoint.{port, timeout, flag, address, versioned};
ghost use Rattle.endpoint.specs.Parts.{settings, tail, settings_fields, tail_fields, address_fields, fields_later, FieldsFit};

use wire::{Counted, Refusal};

// The host's length, port, timeout, compress and the bytes taken.
#[derive(Clone, Copy)]
pub struct Fields {
    pub host: usize,
    pub port: usize,
    pub timeout: usize,
    pub compress: usize,
    pub bytes: usize,
}

// What a reader of fields answers that begins n bytes later: the bytes taken, counted with those n, or its refusal.
fn later(n: usize, answer: Result<Fields, Refusal>) -> Result<Fields, Refusal>
    requires { FieldsFit n answer }
    ensures { result ≡ fields_later n answer }
{
    match answer {
        Ok(fields) => Ok(Fields {
            bytes: n + fields.bytes,
            ..fields
        }),
        Err(refusal) => Err(refusal.behind(n)),
    }
}

// A port: an int, 1 to 65,535.
fn port(s: &[u8]) -> Result<Counted, Refusal>
    ensures { result ≡ sized_of (port s.now) }
{
    if s.len() < 4 {
        return Err(Refusal {
            number: 4,
            place: 0,
        });
    }
    let port = wire::int_at(s, 0);
    if port == 0 || 65535 < port {
        return Err(Refusal {
            number: 27,
            place: 0,
        });
    }
    Ok(Counted {
        number: port,
        bytes: 4,
    })
}

// A timeout: any int; UDP has none, and its answer is 0.
fn timeout(s: &[u8], kind: usize) -> Result<Counted, Refusal>
    ensures { result ≡ sized_of (timeout kind s.now) }
{
    if kind == 3 {
        return Ok(Counted {
            number: 0,
            bytes: 0,
        });
    }
    if s.len() < 4 {
        return Err(Refusal {
            number: 4,
            place: 0,
        });
    }
    Ok(Counted {
        number: wire::int_at(s, 0),
        bytes: 4,
    })
}

// Compress: a bool.
fn flag(s: &[u8]) -> Result<Counted, Refusal>
    ensures { result ≡ sized_of (flag s.now) }
{
    if s.len() < 1 {
        return Err(Refusal {
            number: 4,
            place: 0,
        });
    }
    let flag = wire::byte_at(s, 0);
    if 2 <= flag {
        return Err(Refusal {
            number: 8,
            place: 0,
        });
    }
    Ok(Counted {
        number: flag,
        bytes: 1,
    })
}

// Timeout and compress, after a host of so many bytes and a port.
fn settings(s: &[u8], kind: usize, host: usize, port: usize) -> Result<Fields, Refusal>
    ensures { result ≡ settings_fields host port (settings kind s.now) }
{
    let timeout = timeout(s, kind)?;
    match flag(&s[timeout.bytes..]) {
        Ok(compress) => Ok(Fields {
            host,
            port,
            timeout: timeout.number,
            compress: compress.number,
            bytes: timeout.bytes + compress.bytes,
        }),
        Err(refusal) => Err(refusal.behind(timeout.bytes)),
    }
}

// Port, timeout and compress, after a host of so many bytes.
fn tail(s: &[u8], kind: usize, host: usize) -> Result<Fields, Refusal>
    ensures { result ≡ tail_fields host (tail kind s.now) }
{
    let port = port(s)?;
    later(
        port.bytes,
        settings(&s[port.bytes..], kind, host, port.number),
    )
}

// All fields: the host, then the others.
fn address(s: &[u8], kind: usize) -> Result<Fields, Refusal>
    ensures { result ≡ address_fields (address kind s.now) }
{
    let host = text::read_string(s)?;
    later(host.bytes, tail(&s[host.bytes..], kind, host.number))
}

// Version 1.1, then the fields.
fn versioned(s: &[u8], kind: usize) -> Result<Fields, Refusal>
    ensures { result ≡ address_fields (versioned kind s.now) }
{
    if s.len() < 2 {
        return Err(Refusal {
            number: 4,
            place: 0,
        });
    }
    if wire::short_at(s, 0) != 257 {
        return Err(Refusal {
            number: 6,
            place: 0,
        });
    }
    later(2, address(&s[2..], kind))
}

// An encapsulation that the version and the fields use up.
pub fn enclosed(s: &[u8], kind: usize) -> Result<Fields, Refusal>
    ensures { result ≡ address_fields (inside (declared 6 4) (versioned kind) s.now) }
{
    let n = wire::read_declared(s, 6, 4)?;
    let fields = later(4, versioned(&s[4..n], kind))?;
    if fields.bytes != n {
        return Err(Refusal {
            number: 11,
            place: 0,
        });
    }
    Ok(fields)
}
