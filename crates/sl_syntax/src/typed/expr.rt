use crate::operator::{Arithmetic, Comparison};
use crate::typed::{Fix, Head, Left, Step};
use sl_base::{Place, Scalar};

/// An expression. What it gives has the type that is needed there: each conversion is a node, and parentheses are none.
#[cycle(typed_expression)]
#[derive(Drop)]
pub enum Expr {
    /// `7`; `true` and `false` are 1 and 0
    Literal {
        scalar: Scalar,
        value: u32,
    },
    /// The number at a left side.
    Held(Left),
    /// An iterator, by its number.
    Iterator(u8),
    /// A number, converted to a type.
    Convert {
        scalar: Scalar,
        operand: Box<Expr>,
    },
    /// `-x` in a type, at the operator
    Negate {
        scalar: Scalar,
        place: Place,
        operand: Box<Expr>,
    },
    /// `!x`, at the operator
    LogicalNot {
        place: Place,
        operand: Box<Expr>,
    },
    /// `x && y`, at the operator
    LogicalAnd {
        place: Place,
        left: Box<Expr>,
        right: Box<Expr>,
    },
    /// `x || y`, at the operator
    LogicalOr {
        place: Place,
        left: Box<Expr>,
        right: Box<Expr>,
    },
    /// `x + y` and its like in a type, at the operator
    Arithmetic {
        operator: Arithmetic,
        scalar: Scalar,
        place: Place,
        left: Box<Expr>,
        right: Box<Expr>,
    },
    /// `x < y` and its like on numbers, at the operator
    Comparison {
        operator: Comparison,
        place: Place,
        left: Box<Expr>,
        right: Box<Expr>,
    },
    /// `++` or `--` of a number of a type, at the operator
    Increment {
        step: Step,
        fix: Fix,
        scalar: Scalar,
        place: Place,
        left: Left,
    },
    /// A call that moves an iterator variable, known by its number: `++it`, `it += n`, `std::advance(it, n)`. The
    /// operands are those behind it.
    Move {
        fix: Fix,
        iterator: u8,
        head: Head,
        operands: Vec<Expr>,
    },
    /// A call of the library that gives no element.
    Call {
        head: Head,
        operands: Vec<Expr>,
    },
    /// `f(..)`, a function of the text by its number, at the name
    OwnCall {
        function: u16,
        place: Place,
        operands: Vec<Expr>,
    },
    /// `.first` of a pair, at its mark
    First {
        place: Place,
        operand: Box<Expr>,
    },
    /// `.second` of a pair, at its mark
    Second {
        place: Place,
        operand: Box<Expr>,
    },
    /// A container as an operand, by its number.
    Container(u8),
    /// A scalar that is handed to a parameter by reference, by its number.
    HandedScalar(u8),
}
