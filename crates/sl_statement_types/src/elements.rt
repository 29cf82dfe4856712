//! References to elements, and the variable of a range-for.
ghost use Rattle.std.specs.Prelude.{◌≡◌};
ghost use Rattle.sl_syntax.specs.declared.tree.element.Element.TheVariants as elements;
ghost use Rattle.sl_typing.specs.declared.expr_type.ExprType.TheVariants as types;
ghost use Rattle.sl_typing.specs.Ranges as spec;

use sl_base::{Form, Scalar};
use sl_syntax::{Access, Element, ElementType, ReferenceHead};
use sl_typing::{ExprType, is_const, is_keyed, is_map};

// Whether it is `auto`.
fn is_auto(element: ElementType) -> bool
    ensures { result ≡ spec.is_auto element }
{
    matches!(element, ElementType::Auto)
}

// Whether a head writes through its reference, where the element is written or isn't.
fn head_writes(head: ReferenceHead, writable: bool) -> bool
    ensures { result ≡ spec.head_writes head writable }
{
    !head.is_const & (writable | !is_auto(head.element))
}

/// Whether a head would write what isn't written.
pub fn head_frees_const(head: ReferenceHead, writable: bool) -> bool
    ensures { result ≡ spec.head_frees_const head writable }
{
    head_writes(head, writable) & !writable
}

/// The type of a reference with this head that is bound to an element of this type.
pub fn reference_type(head: ReferenceHead, bound: ExprType) -> ExprType
    ensures { result ≡ spec.reference_type head bound }
{
    ExprType::IntReference(head_writes(head, bound.is_written()))
}

/// Whether a range-for goes over a container of this type.
pub fn may_go_over(element: Element, over: ExprType) -> bool
    ensures { result ≡ spec.may_go_over element over }
{
    match (element, over) {
        (Element::Value(_), ExprType::Container(_, form)) => !is_map(form),
        (Element::Reference(head), ExprType::Container(_, form)) => {
            !is_map(form) | is_auto(head.element)
        }
        _ => false,
    }
}

// Whether the elements of a container, which aren't pairs, are written.
fn has_written_elements(access: Access, form: Form) -> bool
    ensures { result ≡ spec.has_written_elements access form }
{
    !is_const(access) & !is_keyed(form)
}

// The type of a range-for's reference to an element of a container.
fn reference_into(head: ReferenceHead, access: Access, form: Form) -> ExprType
    ensures { result ≡ spec.element_type (elements.Reference head) (types.Container access form) }
{
    if is_map(form) & is_auto(head.element) {
        ExprType::EntryReference(!head.is_const & !is_const(access))
    } else {
        ExprType::IntReference(head_writes(head, is_map(form) | has_written_elements(access, form)))
    }
}

/// The type of the variable of a range-for over a container of this type.
pub fn element_type(element: Element, over: ExprType) -> ExprType
    ensures { result ≡ spec.element_type element over }
{
    match (element, over) {
        (Element::Value(_), _) => ExprType::Scalar(Scalar::Int),
        (Element::Reference(head), ExprType::Container(access, form)) => {
            reference_into(head, access, form)
        }
        (Element::Reference(head), _) => ExprType::IntReference(!head.is_const),
    }
}

/// Whether a range-for's reference would write what isn't written.
pub fn frees_const(element: Element, over: ExprType) -> bool
    ensures { result ≡ spec.frees_const element over }
{
    match (element, over) {
        (Element::Reference(head), ExprType::Container(access, form)) => {
            !is_map(form) & head_frees_const(head, has_written_elements(access, form))
        }
        _ => false,
    }
}
