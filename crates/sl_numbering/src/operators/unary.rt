//! Operators before an operand and behind one.
ghost use Rattle.std.specs.Prelude.{◌≡◌, IfOk};
ghost use Rattle.sl_syntax.specs.Typed as t;
ghost use Rattle.sl_syntax.specs.TypedView as view;
ghost use Rattle.sl_typing.specs.Numbering as spec;

use crate::conversion::converted;
use crate::members::iterator_element;
use crate::operand::Operand;
use crate::steps::stepped;
use sl_base::{Place, Scalar};
use sl_syntax::typed::{Expr, Fix, Operator, Step};
use sl_syntax::{PostfixOperator, PrefixOperator};
use sl_typing::common;
use std::alloc::{AllocError, Global};

/// An operator before an operand of a type, at the operator, with the names that its call tells.
pub fn prefixed(
    alloc: Global,
    operator: PrefixOperator,
    place: Place,
    names: &[Option<u16>],
    operand: Operand,
) -> Result<Expr, AllocError>
    ensures { IfOk result (λ e. view.expr_of e ≡ spec.prefixed operator place operand.value_type names.now (view.expr_of operand.value)) }
{
    match operator {
        PrefixOperator::Not => logical_not(alloc, place, operand.value),
        PrefixOperator::Negate => negated(
            alloc,
            place,
            common(operand.value_type.scalar(), Scalar::Int),
            operand,
        ),
        PrefixOperator::Dereference => iterator_element(
            alloc,
            Operator::Dereference,
            place,
            names,
            operand.value,
        ),
        PrefixOperator::Increment => stepped(alloc, Step::Up, Fix::Prefix, place, names, operand),
        PrefixOperator::Decrement => stepped(alloc, Step::Down, Fix::Prefix, place, names, operand),
    }
}

/// An operator behind an operand of a type, at the operator, with the names that its call tells.
pub fn postfixed(
    alloc: Global,
    operator: PostfixOperator,
    place: Place,
    names: &[Option<u16>],
    operand: Operand,
) -> Result<Expr, AllocError>
    ensures { IfOk result (λ e. view.expr_of e ≡ spec.postfixed operator place operand.value_type names.now (view.expr_of operand.value)) }
{
    match operator {
        PostfixOperator::Increment => stepped(alloc, Step::Up, Fix::Postfix, place, names, operand),
        PostfixOperator::Decrement => stepped(
            alloc,
            Step::Down,
            Fix::Postfix,
            place,
            names,
            operand,
        ),
    }
}

#[tactic(auto, using(sl_syntax::proofs::TypedViews::expr_views))]
fn logical_not(alloc: Global, place: Place, value: Expr) -> Result<Expr, AllocError>
    ensures { IfOk result (λ e. view.expr_of e ≡ t.logical_not place (view.expr_of value)) }
{
    let operand = Box::new(alloc, value)?;
    Ok(Expr::LogicalNot { place, operand })
}

// A number of a type as one of the type that `-` calculates in.
#[tactic(auto, using(sl_syntax::proofs::TypedViews::expr_views))]
fn negated(
    alloc: Global,
    place: Place,
    scalar: Scalar,
    operand: Operand,
) -> Result<Expr, AllocError>
    ensures { IfOk result (λ e. view.expr_of e ≡ spec.negated place scalar operand.value_type (view.expr_of operand.value)) }
{
    let number = converted(alloc, scalar, operand)?;
    let operand = Box::new(alloc, number)?;
    Ok(Expr::Negate {
        scalar,
        place,
        operand,
    })
}
