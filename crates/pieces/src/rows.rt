// The part of the buffer that a row gives.
ghost use Rattle.std.specs.Prelude.{◌≡◌, ◌≤◌, length, take, drop};

// How many bytes of a row's part, `len` bytes from `place` on, lie in the buffer.
pub fn part_len(place: usize, len: usize, buffer: &[u8]) -> usize
    ensures { (result ≡ length (take len (drop place buffer.now))) × (result ≤ length buffer.now) }
{
    if buffer.len() <= place {
        return 0;
    }
    if len <= buffer.len() - place {
        return len;
    }
    buffer.len() - place
}
