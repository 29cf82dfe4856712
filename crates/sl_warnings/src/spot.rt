/// What tells two warnings of a report apart, in the order in which they count: line, column, kind and argument.
#[derive(Clone, Copy, PartialEq, Eq, PartialOrd, Ord, Hash)]
pub struct Spot {
    pub line: u32,
    pub col: u32,
    pub kind: u8,
    pub argument: u8,
}
