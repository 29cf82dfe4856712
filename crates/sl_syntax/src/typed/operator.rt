use crate::operator::Comparison;

/// An operator on iterators.
#[derive(Clone, Copy)]
pub enum Operator {
    /// `*it`
    Dereference,
    /// `it->first`
    ArrowFirst,
    /// `it->second`
    ArrowSecond,
    /// `++it` and `it++`
    Increment,
    /// `--it` and `it--`
    Decrement,
    /// `it + n`
    Add,
    /// `it - n`
    Subtract,
    /// `it += n`
    AddAssign,
    /// `it -= n`
    SubtractAssign,
    /// `it - other`
    Difference,
    /// `it == other` and its like
    Compare(Comparison),
}
