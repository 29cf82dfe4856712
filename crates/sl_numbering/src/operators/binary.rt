//! Operators between two operands.
ghost use Rattle.std.specs.Prelude.{◌≡◌, IfOk};
ghost use Rattle.sl_syntax.specs.Typed as t;
ghost use Rattle.sl_syntax.specs.TypedView as view;
ghost use Rattle.sl_typing.specs.Numbering as spec;
ghost use Rattle.sl_typing.specs.Types.{common, scalar_of};

use crate::calls::call;
use crate::conversion::converted;
use crate::heads::{operator_head, two};
use crate::operand::Operand;
use sl_base::{Place, Scalar};
use sl_syntax::typed::{Expr, Operator};
use sl_syntax::{Arithmetic, BinaryOperator, Comparison};
use sl_typing::{ExprType, common};
use std::alloc::{AllocError, Global};

/// An operator between two operands, at the operator, with the names that its call tells.
pub fn joined(
    alloc: Global,
    operator: BinaryOperator,
    place: Place,
    names: &[Option<u16>],
    left: Operand,
    right: Operand,
) -> Result<Expr, AllocError>
    ensures { IfOk result (λ e. view.expr_of e
        ≡ spec.joined operator place left.value_type right.value_type names.now (view.expr_of left.value) (view.expr_of right.value)) }
{
    match operator {
        BinaryOperator::Or => logical_or(alloc, place, left.value, right.value),
        BinaryOperator::And => logical_and(alloc, place, left.value, right.value),
        BinaryOperator::Comparison(comparison) => compared(
            alloc, comparison, place, names, left, right,
        ),
        BinaryOperator::Arithmetic(arithmetic) => calculated(
            alloc, arithmetic, place, names, left, right,
        ),
    }
}

#[tactic(auto, using(sl_syntax::proofs::TypedViews::expr_views))]
fn logical_or(alloc: Global, place: Place, left: Expr, right: Expr) -> Result<Expr, AllocError>
    ensures { IfOk result (λ e. view.expr_of e ≡ t.logical_or place (view.expr_of left) (view.expr_of right)) }
{
    let left = Box::new(alloc, left)?;
    let right = Box::new(alloc, right)?;
    Ok(Expr::LogicalOr { place, left, right })
}

#[tactic(auto, using(sl_syntax::proofs::TypedViews::expr_views))]
fn logical_and(alloc: Global, place: Place, left: Expr, right: Expr) -> Result<Expr, AllocError>
    ensures { IfOk result (λ e. view.expr_of e ≡ t.logical_and place (view.expr_of left) (view.expr_of right)) }
{
    let left = Box::new(alloc, left)?;
    let right = Box::new(alloc, right)?;
    Ok(Expr::LogicalAnd { place, left, right })
}

// An operator that compares iterators, or numbers.
fn compared(
    alloc: Global,
    comparison: Comparison,
    place: Place,
    names: &[Option<u16>],
    left: Operand,
    right: Operand,
) -> Result<Expr, AllocError>
    ensures { IfOk result (λ e. view.expr_of e
        ≡ spec.joined (BinaryOperator.Comparison comparison) place left.value_type right.value_type names.now
        (view.expr_of left.value) (view.expr_of right.value)) }
{
    if left.value_type.is_iterator() {
        between_iterators(
            alloc,
            Operator::Compare(comparison),
            place,
            names,
            left.value,
            right.value,
        )
    } else {
        compared_numbers(alloc, comparison, place, left, right)
    }
}

#[tactic(auto, using(sl_syntax::proofs::TypedViews::expr_views))]
fn compared_numbers(
    alloc: Global,
    operator: Comparison,
    place: Place,
    left: Operand,
    right: Operand,
) -> Result<Expr, AllocError>
    ensures { IfOk result (λ e. view.expr_of e
        ≡ (let type = common (scalar_of left.value_type) (scalar_of right.value_type) in
        t.comparison operator place (spec.converted type left.value_type (view.expr_of left.value))
        (spec.converted type right.value_type (view.expr_of right.value)))) }
{
    let scalar = common(left.value_type.scalar(), right.value_type.scalar());
    let left = converted(alloc, scalar, left)?;
    let right = converted(alloc, scalar, right)?;
    let left = Box::new(alloc, left)?;
    let right = Box::new(alloc, right)?;
    Ok(Expr::Comparison {
        operator,
        place,
        left,
        right,
    })
}

// An operator between two operands as a call of the library.
fn between_iterators(
    alloc: Global,
    operator: Operator,
    place: Place,
    names: &[Option<u16>],
    left: Expr,
    right: Expr,
) -> Result<Expr, AllocError>
    ensures { IfOk result (λ e. view.expr_of e
        ≡ t.call (spec.operator_head operator place names.now) (spec.two (view.expr_of left) (view.expr_of right))) }
{
    let head = operator_head(alloc, operator, place, names)?;
    let operands = two(alloc, left, right)?;
    Ok(call(head, operands))
}

/// An operator that calculates: with two iterators, with an iterator and a number, or with two numbers.
pub fn calculated(
    alloc: Global,
    operator: Arithmetic,
    place: Place,
    names: &[Option<u16>],
    left: Operand,
    right: Operand,
) -> Result<Expr, AllocError>
    ensures { IfOk result (λ e. view.expr_of e
        ≡ spec.calculated operator place left.value_type right.value_type names.now (view.expr_of left.value)
        (view.expr_of right.value)) }
{
    match (left.value_type, right.value_type) {
        (ExprType::Iterator(_, _), ExprType::Iterator(_, _)) => {
            between_iterators(
                alloc,
                Operator::Difference,
                place,
                names,
                left.value,
                right.value,
            )
        }
        (ExprType::Iterator(_, _), _) => {
            moved_iterator(
                alloc,
                sum_operator(operator),
                place,
                names,
                left.value,
                right,
            )
        }
        _ => calculated_numbers(alloc, operator, place, left, right),
    }
}

fn sum_operator(operator: Arithmetic) -> Operator
    ensures { result ≡ spec.sum_operator operator }
{
    match operator {
        Arithmetic::Subtract => Operator::Subtract,
        _ => Operator::Add,
    }
}

// An operator between an iterator and a number.
fn moved_iterator(
    alloc: Global,
    operator: Operator,
    place: Place,
    names: &[Option<u16>],
    iterator: Expr,
    number: Operand,
) -> Result<Expr, AllocError>
    ensures { IfOk result (λ e. view.expr_of e
        ≡ t.call (spec.operator_head operator place names.now)
        (spec.two (view.expr_of iterator) (spec.converted Scalar.Diff number.value_type (view.expr_of number.value)))) }
{
    let distance = converted(alloc, Scalar::Diff, number)?;
    between_iterators(alloc, operator, place, names, iterator, distance)
}

#[tactic(auto, using(sl_syntax::proofs::TypedViews::expr_views))]
fn calculated_numbers(
    alloc: Global,
    operator: Arithmetic,
    place: Place,
    left: Operand,
    right: Operand,
) -> Result<Expr, AllocError>
    ensures { IfOk result (λ e. view.expr_of e
        ≡ (let type = common (scalar_of left.value_type) (scalar_of right.value_type) in
        t.arithmetic operator type place (spec.converted type left.value_type (view.expr_of left.value))
        (spec.converted type right.value_type (view.expr_of right.value)))) }
{
    let scalar = common(left.value_type.scalar(), right.value_type.scalar());
    let left = converted(alloc, scalar, left)?;
    let right = converted(alloc, scalar, right)?;
    let left = Box::new(alloc, left)?;
    let right = Box::new(alloc, right)?;
    Ok(Expr::Arithmetic {
        operator,
        scalar,
        place,
        left,
        right,
    })
}
