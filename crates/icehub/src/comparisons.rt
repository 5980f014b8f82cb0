// The calls that compare two tables: `top` and `next` are the chosen rows of the old and the new table, `room` is the length of the lent list in bytes.
ghost use Rattle.std.specs.Prelude.{◌≡◌, length};
ghost use Rattle.differences.specs.Compare.{comparing, differences_listed};
ghost use Rattle.compare.specs.Compared.{compared_of};

// Compares two tables: 0 or the refusal number, and the differences in the lent list; bytes after them stay.
// Wrong and ruled out: the refusal's place in place of its number; a list that is filled on a refusal.
#[unsafe(no_mangle)]
pub extern "C" fn icehub_compare(
    old: &[u8],
    top: u32,
    new: &[u8],
    next: u32,
    list: &mut [u8],
) -> u32
    ensures value { result ≡ (compared_of (comparing old.now top new.now next (length list.old))).refusal }
    ensures list_after { list.new ≡ differences_listed (comparing old.now top new.now next (length list.old)) list.old }
{
    let c = compare::compare(old, top as usize, new, next as usize, list);
    c.refusal
}

// The place of the refusal; the new table's places are moved by 1,000,000.
// Wrong and ruled out: the refusal's number in its place; the place that another list gives.
#[unsafe(no_mangle)]
pub extern "C" fn icehub_compare_place(
    old: &[u8],
    top: u32,
    new: &[u8],
    next: u32,
    room: usize,
) -> u32
    ensures { result ≡ (compared_of (comparing old.now top new.now next room)).place }
{
    let c = compare::answer(old, top as usize, new, next as usize, room);
    c.place
}

// The number of differences; 0 on a refusal.
// Wrong and ruled out: the entries that the list has room for; the number of differences on a refusal.
#[unsafe(no_mangle)]
pub extern "C" fn icehub_compare_count(
    old: &[u8],
    top: u32,
    new: &[u8],
    next: u32,
    room: usize,
) -> u32
    ensures { result ≡ (compared_of (comparing old.now top new.now next room)).count }
{
    let c = compare::answer(old, top as usize, new, next as usize, room);
    c.count
}

// 1 if the new table extends the old one and the tops match, else 0; 0 on a refusal.
// Wrong and ruled out: 1 where there are no differences of records but the tops do not match; 1 on a refusal.
#[unsafe(no_mangle)]
pub extern "C" fn icehub_compare_extends(
    old: &[u8],
    top: u32,
    new: &[u8],
    next: u32,
    room: usize,
) -> u32
    ensures { result ≡ (compared_of (comparing old.now top new.now next room)).extends }
{
    let c = compare::answer(old, top as usize, new, next as usize, room);
    c.extends
}
