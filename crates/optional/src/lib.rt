// An optional's header and its declared bytes; neither needs a value. headers.rt has the header, extents.rt the declared bytes.
#![tactic(auto)]

pub mod extents;
pub mod headers;

ghost use Rattle.std.specs.Prelude.{◌≡◌};
ghost use Rattle.optional.specs.Answers.{type_of};

// A header before it is judged: whether its tag is long, its tag, its type bits, and its bytes.
#[derive(Clone, Copy)]
pub struct Front {
    pub long: bool,
    pub tag: usize,
    pub bits: usize,
    pub head: usize,
}

// A header. Of a known tag: the member row, the row of its type, the tag, the header's bytes, the number of its form. Of an unknown one: the tag, the type bits, the header's bytes.
#[derive(Clone, Copy)]
pub enum Head {
    Known(usize, usize, usize, usize, usize),
    Unknown(usize, usize, usize),
}

// A header's tag, its type bits, and its bytes; 0 bytes if nothing is said of it.
#[derive(Clone, Copy)]
pub struct Title {
    pub tag: usize,
    pub bits: usize,
    pub head: usize,
}

// The row of the type of member m, of `all` members, whose row says `of`; without such a member, a row without a tree.
pub fn type_of(all: usize, m: usize, of: usize) -> usize
    ensures { result ≡ type_of all m of }
{
    if m < all { of } else { 256 }
}
