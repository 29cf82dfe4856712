//! Parts whose order could matter.
ghost use Rattle.std.specs.Prelude.{◌≡◌, []};
ghost use Rattle.std.specs.List.{list_any};
ghost use Rattle.sl_syntax.specs.TreeView.{expr_of, exprs_of};
ghost use Rattle.sl_syntax.specs.declared.tree.expr.Expr.{Expr as ExprCode};
ghost use Rattle.sl_typing.specs.Order as spec;
ghost use Rattle.sl_effect_order.specs.Means.Seen as means;

use crate::deeds::deeds_seen;
use crate::still::is_still;
use sl_syntax::{BinaryOperator, Expr};
use sl_typing::Scope;

// Whether a part may stand beside another one, in any order, by what that one does.
fn stands_beside(scope: &Scope, doing: &Expr, e: &Expr) -> bool
    ensures { result ≡ spec.stands_beside scope.now (spec.deeds scope.now (expr_of doing.now))
        (expr_of e.now) }
{
    stands_beside_changes(scope, doing, e) & stands_beside_writes(scope, doing, e)
}

// So by its changes.
fn stands_beside_changes(scope: &Scope, doing: &Expr, e: &Expr) -> bool
    ensures { result ≡ means.stands_beside_changes scope.now (expr_of doing.now) (expr_of e.now) }
{
    let seen = deeds_seen(scope, doing, false, e);
    !seen.changes | (is_still(scope, None, false, e) & seen.spares)
}

// So by its writes of elements.
fn stands_beside_writes(scope: &Scope, doing: &Expr, e: &Expr) -> bool
    ensures { result ≡ means.stands_beside_writes scope.now (expr_of doing.now) (expr_of e.now) }
{
    let seen = deeds_seen(scope, doing, true, e);
    !seen.writes | (is_still(scope, None, true, e) & seen.spares)
}

/// Whether the order of two parts could matter. It takes no memory.
pub fn clash(scope: &Scope, x: &Expr, y: &Expr) -> bool
    ensures { result ≡ spec.clash scope.now (expr_of x.now) (expr_of y.now) }
{
    !(stands_beside(scope, x, y) & stands_beside(scope, y, x))
}

// Whether that of a part and one of these could.
fn clashes(scope: &Scope, x: &Expr, ys: &[Expr]) -> bool
    ensures { result ≡ list_any (λ (y : ExprCode).
        means.clash_of scope.now (expr_of x.now) (expr_of y)) ys.now }
{
    ys.iter().any(|y| clash_of(scope, x, y))
}

fn clash_of(scope: &Scope, x: &Expr, y: &Expr) -> bool
    ensures { result ≡ means.clash_of scope.now (expr_of x.now) (expr_of y.now) }
{
    clash(scope, x, y)
}

/// Whether the order of two of these could matter. It takes no memory.
pub fn some_clash(scope: &Scope, xs: &[Expr]) -> bool
    ensures { result ≡ spec.some_clash scope.now (exprs_of xs.now) }
{
    let mut found = false;
    for (place, x) in xs.iter().enumerate() {
        found = found | clashes(scope, x, &xs[place + 1..]);
    }
    found
}

// Whether an operator evaluates its left operand first.
fn is_ordered(operator: BinaryOperator) -> bool
    ensures { result ≡ spec.is_ordered operator }
{
    matches!(operator, BinaryOperator::Or | BinaryOperator::And)
}

/// The rule at a node: whether the order of two of its parts is open and could matter. It takes no memory.
#[tactic(auto, using(crate::proofs::RuleLaws::rule_laws))]
pub fn order_matters(scope: &Scope, e: &Expr) -> bool
    ensures { result ≡ spec.order_matters scope.now (expr_of e.now) }
{
    match e {
        Expr::Binary {
            left,
            operator,
            right,
            ..
        } => !is_ordered(*operator) & clash(scope, left, right),
        Expr::Call { arguments, .. } => some_clash(scope, arguments),
        Expr::LibraryCall { arguments, .. } => some_clash(scope, arguments),
        Expr::MemberCall { arguments, .. } => some_clash(scope, arguments),
        Expr::Number { .. } => false,
        Expr::Truth { .. } => false,
        Expr::Name(_) => false,
        Expr::Parentheses { .. } => false,
        Expr::Prefix { .. } => false,
        Expr::Postfix { .. } => false,
        Expr::Index { .. } => false,
        Expr::Member { .. } => false,
    }
}
