//! Values, and what is known behind them.
ghost use Rattle.std.specs.Prelude.{◌≡◌, [], IfOk, OnOk};
ghost use Rattle.sl_syntax.specs.TreeView.{expr_of};
ghost use Rattle.sl_syntax.specs.TypedView as view;
ghost use Rattle.sl_typing.specs.Sites.{behind};
ghost use Rattle.sl_typing.specs.StatementFaults as faults;
ghost use Rattle.sl_typing.specs.StatementNumbering as spec;
ghost use Rattle.sl_typing.specs.TypeOf as types;
ghost use Rattle.sl_number_limits.specs.Fits.{Fits};

use sl_contexts::Known;
use sl_expr_sites::pass;
use sl_expr_types::type_of;
use sl_numbering::{Operand, typed};
use sl_syntax::Expr;
use sl_syntax::typed::Expr as TypedExpr;
use std::alloc::{AllocError, Global};

/// An expression, typed; then is known what is known behind it.
pub fn expression(alloc: Global, known: &mut Known, e: &Expr) -> Result<TypedExpr, AllocError>
    requires fits { Fits known.old }
    requires kept { faults.expr_faults known.old (expr_of e.now) ≡ [] }
    ensures typed { IfOk result (λ x. view.expr_of x ≡ spec.typed_expr known.old (expr_of e.now)) }
    ensures behind { OnOk result (known.new ≡ behind known.old (expr_of e.now)) }
{
    let value = typed(alloc, known.scope(), known.sites(), e)?;
    pass(known, e)?;
    Ok(value)
}

/// An expression, typed, with its type before any conversion; then is known what is known behind it.
pub fn operand(alloc: Global, known: &mut Known, e: &Expr) -> Result<Operand, AllocError>
    requires fits { Fits known.old }
    requires kept { faults.expr_faults known.old (expr_of e.now) ≡ [] }
    ensures value_type { IfOk result (λ x. x.value_type ≡ types.type_of known.old.scope (expr_of e.now)) }
    ensures typed { IfOk result (λ x. view.expr_of x.value ≡ spec.typed_expr known.old (expr_of e.now)) }
    ensures behind { OnOk result (known.new ≡ behind known.old (expr_of e.now)) }
{
    let value_type = type_of(known.scope(), e);
    let value = expression(alloc, known, e)?;
    Ok(Operand { value, value_type })
}
