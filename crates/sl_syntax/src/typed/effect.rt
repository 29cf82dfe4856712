use crate::operator::Arithmetic;
use crate::typed::{Expr, Left};
use sl_base::{Items, Place, Scalar};

/// What a print puts out.
#[derive(Drop)]
pub enum Printed {
    Text(Items<u8>),
    EndLine,
    Number(Expr),
}

/// What is done for its effect.
#[derive(Drop)]
pub enum Effect {
    /// `std::cin >> x >> y`, scalars by their numbers
    Read(Items<u8>),
    /// `std::cout << x << y`
    Print(Vec<Printed>),
    Evaluate(Expr),
    /// `x = y` of numbers
    Assign {
        left: Left,
        value: Expr,
    },
    /// `x += y` and its like of numbers, at the operator: it works in the first type, and the left side has the second.
    Update {
        operator: Arithmetic,
        scalar: Scalar,
        left_scalar: Scalar,
        place: Place,
        left: Left,
        value: Expr,
    },
    /// `it = other` of iterators; the first by its number
    MoveTo {
        iterator: u8,
        value: Expr,
    },
}
