use crate::typed::{ElementPart, Expr, Head};
use sl_base::Place;

/// A left side: where a number is read from or written to.
#[cycle(typed_expression)]
#[derive(Drop)]
pub enum Left {
    /// A scalar by its number, at its name.
    Scalar {
        scalar: u8,
        place: Place,
    },
    /// A use of a reference to an element, by its number among the iterators, at its name: the name's number, and what
    /// is read or written.
    Reference {
        reference: u8,
        place: Place,
        name: u16,
        part: ElementPart,
    },
    /// A call of the library that gives an element.
    Element {
        head: Head,
        operands: Vec<Expr>,
    },
}
