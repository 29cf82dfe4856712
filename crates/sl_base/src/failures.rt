//! The kinds of failures of needs, by the numbers that warnings and traps have.

/// An iterator that an operation may have invalidated.
pub const INVALID_ITERATOR: u8 = 1;

/// An iterator of another container than the one that is asked for.
pub const WRONG_CONTAINER: u8 = 2;

/// Two iterators that are no range.
pub const BAD_RANGE: u8 = 3;

/// A past-the-end iterator where an element is asked for.
pub const END_ITERATOR: u8 = 4;

/// A number that is no index.
pub const OUT_OF_RANGE: u8 = 5;

/// A container without elements.
pub const EMPTY_CONTAINER: u8 = 6;

/// Elements of the object itself.
pub const OWN_ELEMENTS: u8 = 7;

/// An output without room.
pub const NO_ROOM: u8 = 8;

/// An output that overlaps the input.
pub const OVERLAP: u8 = 9;

/// A range that isn't partitioned.
pub const NOT_PARTITIONED: u8 = 10;

/// A range that isn't sorted.
pub const NOT_SORTED: u8 = 11;

/// A reference to an element that an operation may have invalidated.
pub const INVALID_REFERENCE: u8 = 12;
