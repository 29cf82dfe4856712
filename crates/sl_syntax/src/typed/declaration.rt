use crate::typed::{Effect, Expr, Head};
use sl_base::{Form, Scalar};

/// The declaration of a variable. It gets the next number of its sort.
#[derive(Drop)]
pub enum Declaration {
    /// A scalar that isn't set.
    UnsetScalar(Scalar),
    SetScalar {
        scalar: Scalar,
        value: Expr,
    },
    SetIterator(Expr),
    /// A reference to the element that a call of the library gives.
    BindReference {
        head: Head,
        operands: Vec<Expr>,
    },
    /// A container that a call of the library makes.
    MakeContainer {
        form: Form,
        head: Head,
        operands: Vec<Expr>,
    },
}

/// The first part of a `for`.
#[derive(Drop)]
pub enum First {
    Absent,
    Declaration(Declaration),
    Effect(Effect),
}
