use crate::{Items, Mark, Name};

/// What a token says.
#[derive(Drop)]
pub enum Word {
    /// A name that is no key.
    Name(Name),
    /// The name directly behind `std::`.
    Lib(Name),
    /// A keyword of C++17, or `std`.
    Key(Name),
    /// At most 2147483647.
    Number(u32),
    /// The bytes of a text between its quotes, escapes replaced.
    Text(Items<u8>),
    Mark(Mark),
}
