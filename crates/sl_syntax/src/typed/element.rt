/// What a use of a reference reads or writes.
#[derive(Clone, Copy)]
pub enum ElementPart {
    /// `r`, the number that it refers to
    Whole,
    /// `r.first`, the key of the element that it refers to
    First,
    /// `r.second`, the value of the element that it refers to
    Second,
}

/// What the variable of a range-for is.
#[derive(Clone, Copy)]
pub enum Taken {
    /// A number, which takes the value of each element.
    Value,
    /// A reference to each element.
    Reference,
}
