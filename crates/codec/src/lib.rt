// The public calls, for the layers above: what document 01 says under "What a call gives". No call asks anything of its input.
pub use change::{remove, remove_answer, set, set_answer};
pub use convert::{convert, converted};
pub use night::{night, place};
pub use reading::{answer, read, read_numbers};
pub use rowlist::read_rows;
pub use verdict::check;
pub use view::{member, member_numbers};
pub use writing::{write, written};
