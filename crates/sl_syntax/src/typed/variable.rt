use sl_base::Place;

/// The sort of a variable.
#[derive(Clone, Copy)]
pub enum VariableKind {
    Scalar,
    Container,
    Iterator,
    /// A reference to an element, numbered among the iterators.
    Reference,
}

/// A variable that a function declares: its sort, its name's number, and the place of its name where it is declared.
#[derive(Clone, Copy)]
pub struct Variable {
    pub kind: VariableKind,
    pub name: u16,
    pub place: Place,
}
