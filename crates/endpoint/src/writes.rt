// The writer of one endpoint: its arguments are judged, then its length, then its bytes are put.
ghost use Rattle.std.specs.Prelude.{◌≡◌, ◌+◌, ◌≤◌, ◌<◌, length};
ghost use Rattle.encoding.specs.Write.{output, writing_of};
ghost use Rattle.wire.specs.Put.{put};
ghost use Rattle.endpoint.specs.Endpoint.{argument_form, endpoint_writing};
ghost use Rattle.endpoint.specs.Layout.{bit, judged, needed_length, head_bytes, tail_bytes};

use encoding::Writing;

// The first of 2, 3, 24 and 27 that applies to the arguments.
fn judge(kind: usize, host: &[u8], port: usize) -> Result<(), u32>
    ensures { result ≡ judged (argument_form kind host.now port) }
{
    if kind == 0 || 3 < kind {
        return Err(2);
    }
    if 65536 < host.len() {
        return Err(3);
    }
    if !text::is_utf8(host, 0, host.len()) {
        return Err(24);
    }
    if port == 0 || 65535 < port {
        return Err(27);
    }
    Ok(())
}

// How many bytes the endpoint takes that has a host of n bytes.
fn needed(kind: usize, n: usize) -> usize
    requires { n ≤ 65536 }
    ensures { (result ≡ needed_length kind n) × (result ≤ 65558) }
{
    if kind == 3 {
        return 13 + wire::size_len(n) + n;
    }
    17 + wire::size_len(n) + n
}

// The writer's answer for an output of `room` bytes; no output is touched.
// Wrong and ruled out: an answer that is the same for every room; 22 at the room instead of the bytes needed.
pub fn endpoint_written(
    kind: u32,
    host: &[u8],
    port: u32,
    timeout: u32,
    compress: bool,
    room: usize,
) -> Writing
    ensures { result ≡ writing_of (endpoint_writing kind host.now port timeout (bit compress) room) }
{
    if let Err(number) = judge(kind as usize, host, port as usize) {
        return Writing::Rejected(number, 0);
    }
    let n = needed(kind as usize, host.len());
    if 65536 < n || room < n {
        return Writing::Rejected(22, n as u32);
    }
    Writing::Written(n as u32)
}

// Puts the type, the encapsulation's size, the version and the host. The endpoint has n bytes.
fn put_head(out: &mut [u8], kind: usize, n: usize, host: &[u8])
    requires le_n { 2 ≤ n }
    requires host_in_bounds { length (head_bytes kind n host.now) ≤ length out.old }
    ensures { out.new ≡ put 0 (head_bytes kind n host.now) out.old }
{
    wire::put_number(out, 0, 2, kind);
    wire::put_number(out, 2, 4, n - 2);
    wire::put_number(out, 6, 2, 257);
    wire::put_size(out, 8, host.len());
    wire::put_bytes(out, 8 + wire::size_len(host.len()), host);
}

// Puts port, timeout and compress from a place on; UDP has no timeout.
fn put_tail(out: &mut [u8], at: usize, kind: usize, port: usize, timeout: usize, compress: bool)
    requires { at + length (tail_bytes kind port timeout (bit compress)) ≤ length out.old }
    ensures { out.new ≡ put at (tail_bytes kind port timeout (bit compress)) out.old }
{
    let flag = usize::from(compress);
    wire::put_number(out, at, 4, port);
    if kind == 3 {
        wire::put_number(out, at + 4, 1, flag);
    } else {
        wire::put_number(out, at + 4, 4, timeout);
        wire::put_number(out, at + 8, 1, flag);
    }
}

// Writes an endpoint of TCP (1), SSL (2) or UDP (3) at the output's start. Bytes of the output after it stay, and on a refusal all of them. A timeout given for UDP is ignored.
// Wrong and ruled out: a timeout written for UDP; a writer that answers right and puts nothing.
pub fn write_endpoint(
    kind: u32,
    host: &[u8],
    port: u32,
    timeout: u32,
    compress: bool,
    out: &mut [u8],
) -> Writing
    ensures value { result ≡ writing_of (endpoint_writing kind host.now port timeout (bit compress) (length out.old)) }
    ensures out_after { out.new ≡ output (endpoint_writing kind host.now port timeout (bit compress) (length out.old)) out.old }
{
    let written = endpoint_written(kind, host, port, timeout, compress, out.len());
    match written {
        Writing::Written(n) => {
            put_head(out, kind as usize, n as usize, host);
            let at = 8 + wire::size_len(host.len()) + host.len();
            put_tail(
                out,
                at,
                kind as usize,
                port as usize,
                timeout as usize,
                compress,
            );
        }
        Writing::Rejected(_, _) => {}
    }
    written
}
