use crate::typed::Operator;

/// What a call asks of the library. A row is known by its number in the table of the library's calls.
#[derive(Clone, Copy)]
pub enum Callee {
    Row(u16),
    /// The row of an algorithm that is called with `std::back_inserter(c)` as its output. The container c is then the
    /// last operand, and the call gives no iterator.
    Appends(u16),
    Operator(Operator),
    /// An operator that a range-for uses by itself.
    Hidden(Operator),
}
