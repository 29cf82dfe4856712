use sl_base::Place;

/// How the type of an element is written: `int`, or `auto`, which says the same.
#[derive(Clone, Copy)]
pub enum ElementType {
    Int,
    Auto,
}

/// The type of a reference, at its first token: `int&`, `const auto&`.
#[derive(Clone, Copy)]
pub struct ReferenceHead {
    pub place: Place,
    pub is_const: bool,
    pub element: ElementType,
}

/// How the variable of a range-for takes an element: its value, or a reference to it.
#[derive(Clone, Copy)]
pub enum Element {
    Value(ElementType),
    Reference(ReferenceHead),
}
