//! `++` and `--`.
ghost use Rattle.std.specs.Prelude.{◌≡◌, IfOk};
ghost use Rattle.sl_syntax.specs.Typed as t;
ghost use Rattle.sl_syntax.specs.TypedView as view;
ghost use Rattle.sl_typing.specs.Numbering as spec;

use crate::calls::move_call;
use crate::heads::operator_head;
use crate::operand::Operand;
use crate::variables::{left_of, number_in};
use sl_base::{Place, Scalar};
use sl_syntax::typed::{Expr, Fix, Operator, Step};
use sl_typing::ExprType;
use std::alloc::{AllocError, Global};

fn step_operator(step: Step) -> Operator
    ensures { result ≡ spec.step_operator step }
{
    match step {
        Step::Up => Operator::Increment,
        Step::Down => Operator::Decrement,
    }
}

/// `++` or `--`, before or behind an operand of a type, at the operator, with the names that its call tells.
pub fn stepped(
    alloc: Global,
    step: Step,
    fix: Fix,
    place: Place,
    names: &[Option<u16>],
    operand: Operand,
) -> Result<Expr, AllocError>
    ensures { IfOk result (λ e. view.expr_of e ≡ spec.stepped step fix place operand.value_type names.now (view.expr_of operand.value)) }
{
    match operand.value_type {
        ExprType::Iterator(_, _) => moved(
            alloc,
            step,
            fix,
            place,
            names,
            number_in(&operand.value),
        ),
        _ => Ok(increment(step, fix, place, operand.value_type.scalar(), operand.value)),
    }
}

fn moved(
    alloc: Global,
    step: Step,
    fix: Fix,
    place: Place,
    names: &[Option<u16>],
    iterator: u8,
) -> Result<Expr, AllocError>
    ensures { IfOk result (λ e. view.expr_of e
        ≡ t.move fix iterator (spec.operator_head (spec.step_operator step) place names.now) t.none) }
{
    let head = operator_head(alloc, step_operator(step), place, names)?;
    Ok(move_call(fix, iterator, head, Vec::new(alloc)))
}

fn increment(step: Step, fix: Fix, place: Place, scalar: Scalar, value: Expr) -> Expr
    ensures { view.expr_of result ≡ t.increment step fix scalar place (spec.left_of (view.expr_of value)) }
{
    Expr::Increment {
        step,
        fix,
        scalar,
        place,
        left: left_of(value),
    }
}
