//! The operators of a text, and how a function may use a container.

/// An operator that calculates, ISO/IEC 14882:2017, [expr.mul] and [expr.add].
#[derive(Clone, Copy)]
pub enum Arithmetic {
    Add,
    Subtract,
    Multiply,
    Divide,
    Remainder,
}

/// An operator that compares, ISO/IEC 14882:2017, [expr.rel] and [expr.eq].
#[derive(Clone, Copy)]
pub enum Comparison {
    Equal,
    NotEqual,
    Less,
    LessEqual,
    Greater,
    GreaterEqual,
}

/// An operator between two operands.
#[derive(Clone, Copy)]
pub enum BinaryOperator {
    /// `||`
    Or,
    /// `&&`
    And,
    Comparison(Comparison),
    Arithmetic(Arithmetic),
}

/// An operator before its operand.
#[derive(Clone, Copy)]
pub enum PrefixOperator {
    /// `!`
    Not,
    /// `-`
    Negate,
    /// `*`
    Dereference,
    /// `++`
    Increment,
    /// `--`
    Decrement,
}

/// An operator behind its operand.
#[derive(Clone, Copy)]
pub enum PostfixOperator {
    /// `++`
    Increment,
    /// `--`
    Decrement,
}

/// How a member is named.
#[derive(Clone, Copy)]
pub enum Selector {
    /// `.`
    Dot,
    /// `->`
    Arrow,
}

/// An operator that gives a left side a value.
#[derive(Clone, Copy)]
pub enum Assignment {
    /// `=`
    Set,
    /// `+=` and the others
    Update(Arithmetic),
}

/// How a function may use a container that is handed to it by reference.
#[derive(Clone, Copy)]
pub enum Access {
    /// It may not change it.
    Const,
    /// It may change all of it.
    Whole,
    /// It may change elements, through iterators alone.
    Elements,
}
