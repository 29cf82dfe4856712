use crate::operator::Access;
use sl_base::{Form, Scalar};

/// How a parameter takes its operand, and what a function gives back: a scalar by value, or an iterator.
#[derive(Clone, Copy)]
pub enum ParameterKind {
    Value(Scalar),
    /// by reference, a scalar variable
    Reference(Scalar),
    /// by reference, a container that may be used so
    Container { access: Access, form: Form },
    /// by value, an iterator of a container that is const or isn't
    Iterator { is_const: bool, form: Form },
}
