use crate::operator::{BinaryOperator, PostfixOperator, PrefixOperator, Selector};
use crate::tree::Identifier;
use sl_base::Place;

/// An expression: a node for each operator, for each piece behind an operand, and for each pair of parentheses.
#[derive(Drop)]
pub enum Expr {
    /// `7`
    Number {
        place: Place,
        value: u32,
    },
    /// `true` or `false`
    Truth {
        place: Place,
        value: bool,
    },
    /// `x`
    Name(Identifier),
    /// `f(..)`, a function of the program
    Call {
        function: Identifier,
        arguments: Vec<Expr>,
    },
    /// `std::f(..)`
    LibraryCall {
        function: Identifier,
        arguments: Vec<Expr>,
    },
    /// `(..)`, at its first parenthesis
    Parentheses {
        place: Place,
        inner: Box<Expr>,
    },
    /// `-x`
    Prefix {
        operator: PrefixOperator,
        place: Place,
        operand: Box<Expr>,
    },
    /// `x + y`
    Binary {
        left: Box<Expr>,
        operator: BinaryOperator,
        place: Place,
        right: Box<Expr>,
    },
    /// `x++`
    Postfix {
        operand: Box<Expr>,
        operator: PostfixOperator,
        place: Place,
    },
    /// `v[..]`, at its first bracket
    Index {
        object: Box<Expr>,
        place: Place,
        index: Box<Expr>,
    },
    /// `v.f(..)`, at the name
    MemberCall {
        object: Box<Expr>,
        function: Identifier,
        arguments: Vec<Expr>,
    },
    /// `x.first` or `it->first`, at its mark
    Member {
        object: Box<Expr>,
        selector: Selector,
        place: Place,
        member: Identifier,
    },
}
