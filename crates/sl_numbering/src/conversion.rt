//! Conversions of numbers, where they meet, are handed over or stored.
ghost use Rattle.std.specs.Prelude.{◌≡◌, IfOk};
ghost use Rattle.sl_syntax.specs.Typed as t;
ghost use Rattle.sl_syntax.specs.TypedView as view;
ghost use Rattle.sl_typing.specs.Numbering as spec;
ghost use Rattle.sl_numbering.specs.WaysView.{way_seen};

use crate::operand::Operand;
use crate::variables::number_in;
use crate::ways::Way;
use sl_base::Scalar;
use sl_syntax::typed::Expr;
use sl_typing::same_scalar;
use std::alloc::{AllocError, Global};

/// A value of a type as one of this scalar type: a conversion is a node.
pub fn converted(alloc: Global, scalar: Scalar, operand: Operand) -> Result<Expr, AllocError>
    ensures { IfOk result (λ e. view.expr_of e ≡ spec.converted scalar operand.value_type (view.expr_of operand.value)) }
{
    if same_scalar(scalar, operand.value_type.scalar()) {
        Ok(operand.value)
    } else {
        convert(alloc, scalar, operand.value)
    }
}

#[tactic(auto, using(sl_syntax::proofs::TypedViews::expr_views))]
fn convert(alloc: Global, scalar: Scalar, value: Expr) -> Result<Expr, AllocError>
    ensures { IfOk result (λ e. view.expr_of e ≡ t.convert scalar (view.expr_of value)) }
{
    let operand = Box::new(alloc, value)?;
    Ok(Expr::Convert { scalar, operand })
}

/// A value of a type as it is handed over in a way.
pub fn handed(alloc: Global, way: Way, operand: Operand) -> Result<Expr, AllocError>
    ensures { IfOk result (λ e. view.expr_of e ≡ spec.handed (way_seen way) operand.value_type (view.expr_of operand.value)) }
{
    match way {
        Way::AsItIs => Ok(operand.value),
        Way::AsNumber(scalar) => converted(alloc, scalar, operand),
        Way::AsVariable => Ok(Expr::HandedScalar(number_in(&operand.value))),
    }
}
