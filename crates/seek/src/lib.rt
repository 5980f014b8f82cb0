// Finds an optional in an accepted message without a look at values: its owner, the owner's slice, and its place among the slice's optionals.
// Each function equals a definition on any bytes; what it finds in an accepted message is a law of `edit`.
#![tactic(auto)]

ghost use Rattle.std.specs.Prelude.{◌≡◌, ◌||◌, not, suc, ◌≤◌, ◌<◌, ltb, length, drop};
ghost use Rattle.encoding.specs.Table.{types_at, members_at, takes, name_of};
ghost use Rattle.shapes.specs.Shapes.{shapes_of};
ghost use Rattle.table.specs.Found.{found_of};
ghost use Rattle.edit.specs.Change.{target};
ghost use Rattle.edit.specs.Place.{closed, seek_tag, gap_in, seek_slice};
ghost use Rattle.seek.specs.Located.{target_row, slot_of, slot_in, SlotInside, FrameIs, as_gap, SpotInside};

use level::Optional;

// Where an owner's members are: in a parameter list; in a slice, with the places of its flags and of its size, and its end; or nowhere.
#[derive(Clone, Copy)]
pub enum Slot {
    List,
    At {
        flags: usize,
        size: usize,
        end: usize,
    },
    Nothing,
}

// A slice: where its type ID begins, where its size is, and its end.
#[derive(Clone, Copy)]
pub struct Frame {
    pub id: usize,
    pub size: usize,
    pub end: usize,
}

// Where a tag is among the optionals of an owner: from a place up to another, and whether there are other optionals.
#[derive(Clone, Copy)]
pub struct Spot {
    pub from: usize,
    pub to: usize,
    pub others: bool,
}

// Member row m is one of the rows that row t takes. Here and below, `begin` is where the type rows begin.
fn is_of(table: &[u8], begin: usize, t: usize, m: usize) -> bool
    requires { begin ≡ types_at table.now }
    ensures { result ≡ takes table.now t m }
{
    let row = table::type_row(table, begin, t);
    row.a <= m && m < row.a + row.b
}

// The row of the chain of row t that has member row m as an optional.
pub fn owner(table: &[u8], begin: usize, t: usize, m: usize) -> Option<usize>
    requires { begin ≡ types_at table.now }
    ensures { result ≡ found_of (target_row (target table.now t m)) }
{
    let first = table::members_at(table, begin);
    let member = table::member_row(table, first, m);
    if member.mark == 0 {
        return None;
    }
    let mut o = t;
    loop {
        if is_of(table, begin, o, m) {
            return Some(o);
        }
        let b = table::chain::base(table, begin, o);
        if b == 0 {
            return None;
        }
        o = b - 1;
    }
}

// The slice at a place, by its flags, type ID and size; none where these are refused.
fn read_frame(m: &[u8], at: usize) -> Option<Frame>
    requires { at < length m.now }
    ensures { FrameIs m.now at result }
{
    match wire::read_counted(&m[at + 1..]) {
        Ok(id) => {
            let size = at + 1 + id.bytes;
            match wire::read_declared(&m[size..], 4, 4) {
                Ok(bytes) => Some(Frame {
                    id: size - id.number,
                    size,
                    end: size + bytes,
                }),
                Err(_) => None,
            }
        }
        Err(_) => None,
    }
}

// The slice with the name of row o, among the slices of a sliced record from a place on. Slices with other names are passed by their sizes.
fn find_slice(table: &[u8], begin: usize, o: usize, m: &[u8], start: usize) -> Slot
    requires { begin ≡ types_at table.now }
    ensures value { result ≡ slot_of (seek_slice (name_of table.now o) (suc (length m.now)) start (drop start m.now)) }
    ensures slot_inside { SlotInside start (length m.now) result }
{
    let mut at = start;
    // Stays: no `for`, since the step depends on the size just read.
    while at < m.len() {
        match read_frame(m, at) {
            Some(frame) => {
                if table::naming::is_named(table, begin, o, &m[frame.id..frame.size]) {
                    return Slot::At {
                        flags: at,
                        size: frame.size,
                        end: frame.end,
                    };
                }
                at = frame.end;
            }
            None => {
                return Slot::Nothing;
            }
        }
    }
    Slot::Nothing
}

// Where the members of owner o are, in a message under a top of kind k.
pub fn members_in(table: &[u8], begin: usize, k: usize, o: usize, m: &[u8]) -> Slot
    requires { begin ≡ types_at table.now }
    ensures value { result ≡ slot_in table.now k o m.now }
    ensures slot_inside { SlotInside 6 (length m.now) result }
{
    if k == 15 {
        return Slot::List;
    }
    if k == 14 {
        return find_slice(table, begin, o, m, 7);
    }
    find_slice(table, begin, o, m, 6)
}

// No optional follows: the end, or the end marker.
fn is_end(s: &[u8], at: usize) -> bool
    ensures { result ≡ closed (drop at s.now) }
{
    s.len() <= at || wire::byte_at(s, at) == 255
}

// Where an optional of a tag is, or would be put: before the first with a greater tag, known or not. The optionals are the bytes given, up to the end marker or the end; each is passed by its declared bytes.
fn find_tag(
    table: &[u8],
    begin: usize,
    first: usize,
    shapes: &[u8; 256],
    tag: usize,
    s: &[u8],
) -> Spot
    requires begin_value { begin ≡ types_at table.now }
    requires first_value { (first ≡ members_at table.now) × (first < 1048576) }
    requires shapes_value { shapes.now ≡ shapes_of table.now }
    ensures result_value { as_gap result ≡ seek_tag tag (suc (length s.now)) 0 0 s.now }
    ensures spot_inside { SpotInside (length s.now) result }
{
    let mut at = 0;
    let mut least = 0;
    // Stays: no `for`, since each step is as long as the optional just read.
    loop {
        if is_end(s, at) {
            return Spot {
                from: at,
                to: at,
                others: 0 < least,
            };
        }
        let answer = level::optionals::optional(table, begin, first, shapes, 0, 0, least, &s[at..]);
        match answer {
            Ok(next) => match next {
                Optional::Skipped { tag: t, bytes } => {
                    if tag < t {
                        return Spot {
                            from: at,
                            to: at,
                            others: true,
                        };
                    }
                    if tag == t {
                        let end = is_end(s, at + bytes);
                        return Spot {
                            from: at,
                            to: at + bytes,
                            others: 0 < least || !end,
                        };
                    }
                    at += bytes;
                    least = t + 1;
                }
                Optional::Known { .. } => {
                    return Spot {
                        from: at,
                        to: at,
                        others: true,
                    };
                }
            },
            Err(_) => {
                return Spot {
                    from: at,
                    to: at,
                    others: true,
                };
            }
        }
    }
}

// The same among the members of owner o, which are the bytes given; its required members are read first.
pub fn optional_in(
    table: &[u8],
    begin: usize,
    shapes: &[u8; 256],
    o: usize,
    tag: usize,
    s: &[u8],
) -> Spot
    requires begin_value { begin ≡ types_at table.now }
    requires shapes_value { shapes.now ≡ shapes_of table.now }
    requires s_len_bound { length s.now ≤ 65536 }
    ensures result_value { as_gap result ≡ gap_in table.now o tag s.now }
    ensures spot_inside { SpotInside (length s.now) result }
{
    let mut none = [0u8; 12];
    match level::required(table, begin, shapes, o, s, 0, 0, &mut none, false) {
        Ok(members) => {
            let n = members.bytes;
            let first = table::members_at(table, begin);
            let x = find_tag(table, begin, first, shapes, tag, &s[n..]);
            Spot {
                from: n + x.from,
                to: n + x.to,
                others: x.others,
            }
        }
        Err(_) => Spot {
            from: 0,
            to: 0,
            others: true,
        },
    }
}
