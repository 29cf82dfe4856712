//! `.first`, `->first` and `second`.
ghost use Rattle.std.specs.Prelude.{◌≡◌, IfOk, if◌then◌else◌};
ghost use Rattle.sl_syntax.specs.Typed as t;
ghost use Rattle.sl_syntax.specs.TypedView as view;
ghost use Rattle.sl_typing.specs.Numbering as spec;

use crate::calls::element;
use crate::heads::{one, operator_head};
use sl_base::Place;
use sl_syntax::Selector;
use sl_syntax::typed::{ElementPart, Expr, Left, Operator};
use std::alloc::{AllocError, Global};

fn part(is_first: bool) -> ElementPart
    ensures { result ≡ spec.part is_first }
{
    if is_first {
        ElementPart::First
    } else {
        ElementPart::Second
    }
}

fn arrow_operator(is_first: bool) -> Operator
    ensures { result ≡ spec.arrow_operator is_first }
{
    if is_first {
        Operator::ArrowFirst
    } else {
        Operator::ArrowSecond
    }
}

/// The part `first` or `second` of what an expression is: of the element of a range-for, or of a pair, at its mark.
pub fn part_of(alloc: Global, place: Place, is_first: bool, value: Expr) -> Result<Expr, AllocError>
    ensures { IfOk result (λ e. view.expr_of e ≡ spec.part_of place is_first (view.expr_of value)) }
{
    match value {
        Expr::Held(
            Left::Reference {
                reference,
                place: named,
                name,
                ..
            },
        ) => Ok(Expr::Held(Left::Reference {
            reference,
            place: named,
            name,
            part: part(is_first),
        })),
        other => pair_part(alloc, place, is_first, other),
    }
}

#[tactic(auto, using(sl_syntax::proofs::TypedViews::expr_views))]
fn pair_part(alloc: Global, place: Place, is_first: bool, value: Expr) -> Result<Expr, AllocError>
    ensures { IfOk result (λ e. view.expr_of e
        ≡ (if is_first then t.first place (view.expr_of value) else t.second place (view.expr_of value))) }
{
    let operand = Box::new(alloc, value)?;
    if is_first {
        Ok(Expr::First { place, operand })
    } else {
        Ok(Expr::Second { place, operand })
    }
}

/// A piece `.first` or `->first`, or `second`, at its mark, with the names that its call tells.
pub fn selected(
    alloc: Global,
    selector: Selector,
    place: Place,
    is_first: bool,
    names: &[Option<u16>],
    value: Expr,
) -> Result<Expr, AllocError>
    ensures { IfOk result (λ e. view.expr_of e ≡ spec.selected selector place is_first names.now (view.expr_of value)) }
{
    match selector {
        Selector::Dot => part_of(alloc, place, is_first, value),
        Selector::Arrow => iterator_element(alloc, arrow_operator(is_first), place, names, value),
    }
}

/// The element that an operator gives on an iterator.
pub fn iterator_element(
    alloc: Global,
    operator: Operator,
    place: Place,
    names: &[Option<u16>],
    value: Expr,
) -> Result<Expr, AllocError>
    ensures { IfOk result (λ e. view.expr_of e
        ≡ t.held (t.element (spec.operator_head operator place names.now) (spec.one (view.expr_of value)))) }
{
    let head = operator_head(alloc, operator, place, names)?;
    let operands = one(alloc, value)?;
    Ok(element(head, operands))
}
