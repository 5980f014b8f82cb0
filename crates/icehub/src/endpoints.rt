// The calls on one endpoint of a proxy, and where it is in its proxy.
ghost use Rattle.std.specs.Prelude.{◌≡◌, length};
ghost use Rattle.encoding.specs.Write.{output};
ghost use Rattle.endpoint.specs.Endpoint.{open_endpoint, opened_of, opened_within, with_opened, endpoint_writing};
ghost use Rattle.locate.specs.Locate.{locating, located_of, located_within, with_located};
ghost use Rattle.endpoint.specs.Layout.{bit};
ghost use Rattle.icehub.specs.EndpointNumbers.{open_number, locate_number, endpoint_write_number};

// Opens one endpoint: 0 or the refusal number, and opened or not, type, host's place and length, port, timeout and compress in the lent numbers.
// Wrong and ruled out: the refusal's place in place of its number; a call that leaves the numbers as they were.
#[unsafe(no_mangle)]
pub extern "C" fn icehub_endpoint(bytes: &[u8], numbers: &mut [u8]) -> u32
    ensures value { result ≡ open_number bytes.now (length numbers.old) 0 }
    ensures numbers_after { numbers.new ≡ with_opened (opened_within (length numbers.old) (opened_of (open_endpoint bytes.now))) numbers.old }
{
    numbers::opened(endpoint::open_numbers(bytes, numbers))
}

// The refusal's place; 0 if opened or answered as unopened.
// Wrong and ruled out: the refusal's number in its place; the place that another length of the numbers gives.
#[unsafe(no_mangle)]
pub extern "C" fn icehub_endpoint_place(bytes: &[u8], room: usize) -> u32
    ensures { result ≡ open_number bytes.now room 1 }
{
    numbers::opened_place(endpoint::answer(bytes, room))
}

// The writer of one endpoint: 0 or the refusal number, and the endpoint at the output's start.
// Wrong and ruled out: the refusal's place in place of its number; a call that leaves the output as it was.
#[unsafe(no_mangle)]
pub extern "C" fn icehub_endpoint_write(
    kind: u32,
    host: &[u8],
    port: u32,
    timeout: u32,
    compress: bool,
    out: &mut [u8],
) -> u32
    ensures value { result ≡ endpoint_write_number kind host.now port timeout (bit compress) (length out.old) 0 }
    ensures out_after { out.new ≡ output (endpoint_writing kind host.now port timeout (bit compress) (length out.old)) out.old }
{
    numbers::written_number(
        endpoint::write_endpoint(kind, host, port, timeout, compress, out),
        0,
    )
}

// The refusal's place; 0 if written.
// Wrong and ruled out: the refusal's number in its place; the place that another output gives.
#[unsafe(no_mangle)]
pub extern "C" fn icehub_endpoint_write_place(
    kind: u32,
    host: &[u8],
    port: u32,
    timeout: u32,
    compress: bool,
    room: usize,
) -> u32
    ensures { result ≡ endpoint_write_number kind host.now port timeout (bit compress) room 1 }
{
    numbers::written_number(
        endpoint::endpoint_written(kind, host, port, timeout, compress, room),
        1,
    )
}

// The endpoint's length; 0 on a refusal.
// Wrong and ruled out: the bytes needed where the output is too short; the length that another output gives.
#[unsafe(no_mangle)]
pub extern "C" fn icehub_endpoint_write_length(
    kind: u32,
    host: &[u8],
    port: u32,
    timeout: u32,
    compress: bool,
    room: usize,
) -> u32
    ensures { result ≡ endpoint_write_number kind host.now port timeout (bit compress) room 2 }
{
    numbers::written_number(
        endpoint::endpoint_written(kind, host, port, timeout, compress, room),
        2,
    )
}

// Endpoint n of a proxy: 0 or the refusal number, and the number of endpoints, place and length of the n-th in the lent numbers.
// Wrong and ruled out: the refusal's place in place of its number; a call that leaves the numbers as they were.
#[unsafe(no_mangle)]
pub extern "C" fn icehub_proxy_endpoint(proxy: &[u8], n: u32, numbers: &mut [u8]) -> u32
    ensures value { result ≡ locate_number proxy.now n (length numbers.old) 0 }
    ensures numbers_after { numbers.new ≡ with_located (located_within (length numbers.old) (located_of (locating n proxy.now))) numbers.old }
{
    numbers::located(locate::endpoint_at_numbers(proxy, n, numbers))
}

// The refusal's place; 0 if the proxy is accepted.
// Wrong and ruled out: the refusal's number in its place; the place that another length of the numbers gives.
#[unsafe(no_mangle)]
pub extern "C" fn icehub_proxy_endpoint_place(proxy: &[u8], n: u32, room: usize) -> u32
    ensures { result ≡ locate_number proxy.now n room 1 }
{
    numbers::located_place(locate::endpoint_at_answer(proxy, n, room))
}
