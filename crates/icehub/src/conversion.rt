// The converter's calls.
ghost use Rattle.std.specs.Prelude.{◌≡◌, length};
ghost use Rattle.encoding.specs.Write.{output};
ghost use Rattle.convert.specs.Convert.{converting};
ghost use Rattle.icehub.specs.ConvertNumbers.{convert_number};

// Number i of the converter's answer for an output of `room` bytes.
fn convert_number(table: &[u8], top: u32, message: &[u8], room: usize, i: usize) -> u32
    ensures { result ≡ convert_number table.now top message.now room i }
{
    numbers::written_number(convert::converted(table, top, message, room), i)
}

// The converter: 0 or the refusal number, and the sliced form of a compact record at the output's start.
// Wrong and ruled out: the refusal's place in place of its number; a call that leaves the output as it was.
#[unsafe(no_mangle)]
pub extern "C" fn icehub_convert(table: &[u8], top: u32, message: &[u8], out: &mut [u8]) -> u32
    ensures value { result ≡ convert_number table.now top message.now (length out.old) 0 }
    ensures out_after { out.new ≡ output (converting table.now top message.now (length out.old)) out.old }
{
    numbers::written_number(convert::convert(table, top, message, out), 0)
}

// The refusal's place; 0 if converted.
// Wrong and ruled out: the refusal's number in its place; the place that another output gives.
#[unsafe(no_mangle)]
pub extern "C" fn icehub_convert_place(table: &[u8], top: u32, message: &[u8], room: usize) -> u32
    ensures { result ≡ convert_number table.now top message.now room 1 }
{
    convert_number(table, top, message, room, 1)
}

// The length of the sliced form; 0 on a refusal.
// Wrong and ruled out: the bytes needed where the output is too short; the length that another output gives.
#[unsafe(no_mangle)]
pub extern "C" fn icehub_convert_length(table: &[u8], top: u32, message: &[u8], room: usize) -> u32
    ensures { result ≡ convert_number table.now top message.now room 2 }
{
    convert_number(table, top, message, room, 2)
}
