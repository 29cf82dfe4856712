//! Parameters, and what functions give, as typing sees them.
ghost use Rattle.std.specs.Prelude.{◌≡◌};
ghost use Rattle.sl_typing.specs.Scopes as spec;

use sl_base::Scalar;
use sl_syntax::typed::ParameterKind;
use sl_syntax::{Access, Identifier, IteratorType, Param, ResultType};
use sl_typing::ExprType;

/// Whether the name behind `::` says that the iterator writes nothing.
pub fn is_const_name(name: &[u8]) -> bool
    ensures { result ≡ spec.is_const_name name.now }
{
    name == b"const_iterator".as_slice()
}

/// Whether the name behind `::` is one of an iterator type.
pub fn is_iterator_name(name: &[u8]) -> bool
    ensures { result ≡ spec.is_iterator_name name.now }
{
    (name == b"iterator".as_slice()) | is_const_name(name)
}

/// An iterator type as a kind of parameter.
pub fn iterator_kind(iterator: &IteratorType) -> ParameterKind
    ensures { result ≡ spec.iterator_kind iterator.now }
{
    ParameterKind::Iterator {
        is_const: is_const_name(iterator.name.name.as_slice()),
        form: iterator.container.form,
    }
}

/// The kind of a parameter.
pub fn parameter_kind(parameter: &Param) -> ParameterKind
    ensures { result ≡ spec.parameter_kind parameter.now }
{
    match parameter {
        Param::Value { scalar, .. } => ParameterKind::Value(*scalar),
        Param::Reference { scalar, .. } => ParameterKind::Reference(*scalar),
        Param::Container { container, .. } => ParameterKind::Container {
            access: Access::Whole,
            form: container.form,
        },
        Param::ConstContainer { container, .. } => ParameterKind::Container {
            access: Access::Const,
            form: container.form,
        },
        Param::Iterator { iterator, .. } => iterator_kind(iterator),
    }
}

/// What a function gives, as a kind of parameter; a function that gives nothing has none.
pub fn result_kind(given: &ResultType) -> Option<ParameterKind>
    ensures { result ≡ spec.result_kind given.now }
{
    match given {
        ResultType::Void => None,
        ResultType::Scalar(scalar) => Some(ParameterKind::Value(*scalar)),
        ResultType::Iterator(iterator) => Some(iterator_kind(iterator)),
    }
}

/// The name of a parameter.
pub fn name_of_parameter(parameter: &Param) -> &Identifier
    ensures { result.now ≡ spec.name_of_parameter parameter.now }
{
    match parameter {
        Param::Value { name, .. } => name,
        Param::Reference { name, .. } => name,
        Param::Container { name, .. } => name,
        Param::ConstContainer { name, .. } => name,
        Param::Iterator { name, .. } => name,
    }
}

/// The type of a parameter in its function, and of what a call gives.
pub fn type_of_kind(kind: ParameterKind) -> ExprType
    ensures { result ≡ spec.type_of_kind kind }
{
    match kind {
        ParameterKind::Value(scalar) => ExprType::Scalar(scalar),
        ParameterKind::Reference(scalar) => ExprType::Scalar(scalar),
        ParameterKind::Container { access, form } => ExprType::Container(access, form),
        ParameterKind::Iterator { is_const, form } => ExprType::Iterator(is_const, form),
    }
}
