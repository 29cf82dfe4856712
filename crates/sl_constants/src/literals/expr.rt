//! The literals of expressions.
ghost use Rattle.std.specs.Prelude.{◌≡◌, ◌++◌, OnOk};
ghost use Rattle.sl_syntax.specs.TreeView.{expr_of, exprs_of};
ghost use Rattle.sl_typing.specs.Literals.{literals, literals_of_all};

use sl_base::Items;
use sl_syntax::Expr;
use std::alloc::AllocError;

/// Puts the literals of an expression behind the others.
#[cycle(expression)]
#[tactic(auto, using(crate::proofs::ExprLiterals::expr_literals))]
pub fn push_expr(out: &mut Items<i64>, x: &Expr) -> Result<(), AllocError>
    ensures { OnOk result (out.new ≡ out.old ++ literals (expr_of x.now)) }
{
    match x {
        Expr::Number { value, .. } => out.push(i64::from(*value)),
        Expr::Truth { value, .. } => out.push(i64::from(*value)),
        Expr::Name(_) => Ok(()),
        Expr::Call { arguments, .. } => push_all(out, arguments),
        Expr::LibraryCall { arguments, .. } => push_all(out, arguments),
        Expr::Parentheses { inner, .. } => push_expr(out, inner),
        Expr::Prefix { operand, .. } => push_expr(out, operand),
        Expr::Binary { left, right, .. } => {
            push_expr(out, left)?;
            push_expr(out, right)
        }
        Expr::Postfix { operand, .. } => push_expr(out, operand),
        Expr::Index { object, index, .. } => {
            push_expr(out, object)?;
            push_expr(out, index)
        }
        Expr::MemberCall {
            object,
            arguments,
            ..
        } => {
            push_expr(out, object)?;
            push_all(out, arguments)
        }
        Expr::Member { object, .. } => push_expr(out, object),
    }
}

/// Puts those of expressions behind the others.
#[cycle(expression)]
pub fn push_all(out: &mut Items<i64>, xs: &[Expr]) -> Result<(), AllocError>
    ensures { OnOk result (out.new ≡ out.old ++ literals_of_all (exprs_of xs.now)) }
{
    for x in xs {
        push_expr(out, x)?;
    }
    Ok(())
}
