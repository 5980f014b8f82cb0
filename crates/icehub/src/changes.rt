// The calls that set or remove one optional of a message.
ghost use Rattle.std.specs.Prelude.{◌≡◌, length};
ghost use Rattle.encoding.specs.Write.{output};
ghost use Rattle.edit.specs.Change.{set as setting, remove as removing};
ghost use Rattle.icehub.specs.ChangeNumbers.{set_number, remove_number};

// Number i of the answer to `set` for an output of `room` bytes.
fn set_number(
    table: &[u8],
    top: u32,
    message: &[u8],
    member: u32,
    bytes: &[u8],
    room: usize,
    i: usize,
) -> u32
    ensures { result ≡ set_number table.now top message.now member bytes.now room i }
{
    numbers::written_number(
        change::set_answer(table, top, message, member, bytes, room),
        i,
    )
}

// Sets an optional of a message: 0 or the refusal number, and the result at the output's start.
// Wrong and ruled out: the refusal's place in place of its number; a call that leaves the output as it was.
#[unsafe(no_mangle)]
pub extern "C" fn icehub_set(
    table: &[u8],
    top: u32,
    message: &[u8],
    member: u32,
    bytes: &[u8],
    out: &mut [u8],
) -> u32
    ensures value { result ≡ set_number table.now top message.now member bytes.now (length out.old) 0 }
    ensures out_after { out.new ≡ output (setting table.now top message.now member bytes.now (length out.old)) out.old }
{
    numbers::written_number(change::set(table, top, message, member, bytes, out), 0)
}

// The refusal's place; 0 if there is a result.
// Wrong and ruled out: the refusal's number in its place; the place that another output gives.
#[unsafe(no_mangle)]
pub extern "C" fn icehub_set_place(
    table: &[u8],
    top: u32,
    message: &[u8],
    member: u32,
    bytes: &[u8],
    room: usize,
) -> u32
    ensures { result ≡ set_number table.now top message.now member bytes.now room 1 }
{
    set_number(table, top, message, member, bytes, room, 1)
}

// The result's length; 0 on a refusal.
// Wrong and ruled out: the bytes needed where the output is too short; the length that another output gives.
#[unsafe(no_mangle)]
pub extern "C" fn icehub_set_length(
    table: &[u8],
    top: u32,
    message: &[u8],
    member: u32,
    bytes: &[u8],
    room: usize,
) -> u32
    ensures { result ≡ set_number table.now top message.now member bytes.now room 2 }
{
    set_number(table, top, message, member, bytes, room, 2)
}

// Number i of the answer to `remove` for an output of `room` bytes.
fn remove_number(table: &[u8], top: u32, message: &[u8], member: u32, room: usize, i: usize) -> u32
    ensures { result ≡ remove_number table.now top message.now member room i }
{
    numbers::written_number(change::remove_answer(table, top, message, member, room), i)
}

// Removes an optional of a message: 0 or the refusal number, and the result at the output's start.
// Wrong and ruled out: the refusal's place in place of its number; a call that leaves the output as it was.
#[unsafe(no_mangle)]
pub extern "C" fn icehub_remove(
    table: &[u8],
    top: u32,
    message: &[u8],
    member: u32,
    out: &mut [u8],
) -> u32
    ensures value { result ≡ remove_number table.now top message.now member (length out.old) 0 }
    ensures out_after { out.new ≡ output (removing table.now top message.now member (length out.old)) out.old }
{
    numbers::written_number(change::remove(table, top, message, member, out), 0)
}

// The refusal's place; 0 if there is a result.
// Wrong and ruled out: the refusal's number in its place; the place that another output gives.
#[unsafe(no_mangle)]
pub extern "C" fn icehub_remove_place(
    table: &[u8],
    top: u32,
    message: &[u8],
    member: u32,
    room: usize,
) -> u32
    ensures { result ≡ remove_number table.now top message.now member room 1 }
{
    remove_number(table, top, message, member, room, 1)
}

// The result's length; 0 on a refusal.
// Wrong and ruled out: the bytes needed where the output is too short; the length that another output gives.
#[unsafe(no_mangle)]
pub extern "C" fn icehub_remove_length(
    table: &[u8],
    top: u32,
    message: &[u8],
    member: u32,
    room: usize,
) -> u32
    ensures { result ≡ remove_number table.now top message.now member room 2 }
{
    remove_number(table, top, message, member, room, 2)
}
