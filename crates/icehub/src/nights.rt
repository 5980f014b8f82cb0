// The calls for many messages in one buffer: the number of answers comes back, the place by a further call on the same input.
ghost use Rattle.std.specs.Prelude.{◌≡◌, length};
ghost use Rattle.night.specs.Night.{night, answers_listed, rows_listed, walked_of};

// Reads the messages of a buffer, one after another: the number of answers. Bytes after the answers and after the rows stay.
// Wrong and ruled out: the place in place of the number; a list of rows that is the same for every table.
#[unsafe(no_mangle)]
pub extern "C" fn icehub_night(
    table: &[u8],
    top: u32,
    buffer: &[u8],
    answers: &mut [u8],
    rows: &mut [u8],
) -> usize
    ensures value { result ≡ (walked_of (night table.now top buffer.now (length answers.old) (length rows.old))).answers }
    ensures answers_after { answers.new ≡ answers_listed (night table.now top buffer.now (length answers.old) (length rows.old)) answers.old }
    ensures rows_after { rows.new ≡ rows_listed (night table.now top buffer.now (length answers.old) (length rows.old)) rows.old }
{
    let w = night::night(table, top, buffer, answers, rows);
    w.answers
}

// The place of what stopped the walk, or the buffer's length. It hangs on the buffer and on the room for answers alone; the other arguments are those of `icehub_night`; `space` and `room` are the lengths of its lists in bytes.
// Wrong and ruled out: the number of answers in its place; a place that is the same for every room.
#[unsafe(no_mangle)]
pub extern "C" fn icehub_night_place(
    table: &[u8],
    top: u32,
    buffer: &[u8],
    space: usize,
    room: usize,
) -> usize
    ensures { result ≡ (night table.now top buffer.now space room).place }
{
    night::place(buffer, space)
}
