use crate::operator::Assignment;
use crate::tree::{Expr, Identifier};
use sl_base::{Items, Place};

/// `std::cin >> x >> y`, at its first token; at least one variable.
#[derive(Drop)]
pub struct Read {
    pub place: Place,
    pub variables: Items<Identifier>,
}

/// What a print puts out.
#[derive(Drop)]
pub enum Out {
    /// `"text"`
    Text { place: Place, text: Items<u8> },
    /// `std::endl`
    EndLine { place: Place },
    /// a number
    Value(Expr),
}

/// `std::cout << x << y`, at its first token; at least one item.
#[derive(Drop)]
pub struct Print {
    pub place: Place,
    pub items: Vec<Out>,
}

/// What is done for its effect.
#[derive(Drop)]
pub enum Effect {
    Read(Read),
    Print(Print),
    Value(Expr),
    /// `x = ..` or `x += ..`, at the operator
    Assign {
        left: Expr,
        operator: Assignment,
        place: Place,
        right: Expr,
    },
}

/// What is tested.
#[derive(Drop)]
pub enum Cond {
    Read(Read),
    /// `!(std::cin >> x)`, at the `!`
    NotRead { place: Place, read: Read },
    Value(Expr),
}
