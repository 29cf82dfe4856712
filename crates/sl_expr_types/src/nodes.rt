//! The type of a node from the types of its parts.
ghost use Rattle.std.specs.Prelude.{◌≡◌, if◌then◌else◌, false, option_copied};
ghost use Rattle.sl_typing.specs.TypeOf as spec;

use sl_base::{Form, Scalar};
use sl_scopes::parameters::type_of_kind;
use sl_syntax::typed::ParameterKind;
use sl_syntax::{BinaryOperator, PrefixOperator, Selector};
use sl_typing::{ExprType, FunctionHead, common, is_const, is_keyed};

/// The type of a use of a variable of a type: a reference to an int is the element that it is bound to, ISO/IEC 14882:2017, [dcl.init.ref]. It takes no
/// memory.
pub fn type_of_use(variable: ExprType) -> ExprType
    ensures { result ≡ spec.type_of_use variable }
{
    match variable {
        ExprType::IntReference(writable) => ExprType::Element(writable),
        other => other,
    }
}

// The type of what a function gives.
fn type_given(gives: Option<ParameterKind>) -> ExprType
    ensures { result ≡ spec.type_given gives }
{
    match gives {
        None => ExprType::Nothing,
        Some(kind) => type_of_kind(kind),
    }
}

/// The type of a call of this function of the program, if there is one. It takes no memory.
pub fn own_call_type(function: Option<&FunctionHead>) -> ExprType
    ensures { result ≡ spec.own_type (option_copied function.entry) }
{
    match function {
        None => ExprType::Wrong,
        Some(head) => type_given(head.result),
    }
}

// The type of what an iterator stands at.
fn element_at(iterator: ExprType) -> ExprType
    ensures { result ≡ spec.element_at iterator }
{
    match iterator {
        ExprType::Iterator(is_const, form) => ExprType::Element(!is_const & !is_keyed(form)),
        _ => ExprType::Wrong,
    }
}

/// The type of an operator before an operand of this type. It takes no memory.
pub fn prefix_type(operator: PrefixOperator, operand: ExprType) -> ExprType
    ensures { result ≡ spec.prefix_type operator operand }
{
    match operator {
        PrefixOperator::Not => ExprType::Scalar(Scalar::Bool),
        PrefixOperator::Negate => ExprType::Scalar(common(operand.scalar(), Scalar::Int)),
        PrefixOperator::Dereference => element_at(operand),
        PrefixOperator::Increment => operand.value(),
        PrefixOperator::Decrement => operand.value(),
    }
}

// The type of what is calculated from operands of these types.
fn arithmetic_type(left: ExprType, right: ExprType) -> ExprType
    ensures { result ≡ spec.arithmetic_type left right }
{
    match (left, right) {
        (ExprType::Iterator(_, _), ExprType::Iterator(_, _)) => ExprType::Scalar(Scalar::Diff),
        (ExprType::Iterator(is_const, form), _) => ExprType::Iterator(is_const, form),
        _ => ExprType::Scalar(common(left.scalar(), right.scalar())),
    }
}

/// The type of an operator between operands of these types. It takes no memory.
pub fn binary_type(operator: BinaryOperator, left: ExprType, right: ExprType) -> ExprType
    ensures { result ≡ spec.binary_type operator left right }
{
    match operator {
        BinaryOperator::Arithmetic(_) => arithmetic_type(left, right),
        _ => ExprType::Scalar(Scalar::Bool),
    }
}

/// The type of `a[e]`, where `a` has this type. It takes no memory.
pub fn subscript_type(object: ExprType) -> ExprType
    ensures { result ≡ spec.subscript_type object }
{
    match object {
        ExprType::Container(access, _) => ExprType::Element(!is_const(access)),
        _ => ExprType::Wrong,
    }
}

// The type of the first part of a pair of an iterator of this form and a bool, or of the second.
fn inserted_part(form: Form, is_first: bool) -> ExprType
    ensures { result ≡ (if is_first then ExprType.Iterator false form else ExprType.Scalar Scalar.Bool) }
{
    if is_first {
        ExprType::Iterator(false, form)
    } else {
        ExprType::Scalar(Scalar::Bool)
    }
}

// The type of `.first` or `.second`.
fn part_type(object: ExprType, is_first: bool) -> ExprType
    ensures { result ≡ spec.part_type object is_first }
{
    match object {
        ExprType::IteratorAndBool(form) => inserted_part(form, is_first),
        ExprType::IteratorPair(is_const, form) => ExprType::Iterator(is_const, form),
        ExprType::EntryReference(writable) => ExprType::Element(!is_first & writable),
        _ => ExprType::Wrong,
    }
}

// The type of `->first` or `->second`.
fn arrow_type(object: ExprType, is_first: bool) -> ExprType
    ensures { result ≡ spec.arrow_type object is_first }
{
    match object {
        ExprType::Iterator(is_const, _) => ExprType::Element(!is_first & !is_const),
        _ => ExprType::Wrong,
    }
}

/// The type of a piece `.x` or `->x` behind an object of this type, where `x` is `first`, or isn't. It takes no memory.
pub fn selected_type(selector: Selector, object: ExprType, is_first: bool) -> ExprType
    ensures { result ≡ spec.selected_type selector object is_first }
{
    match selector {
        Selector::Dot => part_type(object, is_first),
        Selector::Arrow => arrow_type(object, is_first),
    }
}
