//! What a part does, as another part beside it sees it.
ghost use Rattle.std.specs.Prelude.{◌≡◌};
ghost use Rattle.sl_syntax.specs.TreeView.{expr_of, exprs_of};
ghost use Rattle.sl_typing.specs.Order as spec;
ghost use Rattle.sl_effect_order.specs.Means.Seen as means;

use crate::own_deeds::{
    algorithm_deeds, call_deeds, member_deeds, prefix_deeds, step_deeds, subscript_deeds,
};
use crate::seen_deeds::{SeenDeeds, both, nothing_done};
use sl_syntax::Expr;
use sl_typing::Scope;

// What a part does, as another one sees it.
#[cycle(deeds)]
#[tactic(auto, using(crate::proofs::DeedLaws::deed_laws))]
pub fn deeds_seen(scope: &Scope, part: &Expr, calls: bool, other: &Expr) -> SeenDeeds
    ensures { result ≡ means.seen (means.spares scope.now calls (expr_of other.now))
        (spec.deeds scope.now (expr_of part.now)) }
{
    match part {
        Expr::Call {
            function,
            arguments,
        } => both(
            call_deeds(scope, function.name.as_slice(), arguments, calls, other),
            deeds_of_all(scope, arguments, calls, other),
        ),
        Expr::LibraryCall {
            function,
            arguments,
        } => both(
            algorithm_deeds(scope, function.name.as_slice(), arguments, calls, other),
            deeds_of_all(scope, arguments, calls, other),
        ),
        Expr::Parentheses { inner, .. } => deeds_seen(scope, inner, calls, other),
        Expr::Prefix {
            operator,
            operand,
            ..
        } => both(
            prefix_deeds(scope, *operator, operand, calls, other),
            deeds_seen(scope, operand, calls, other),
        ),
        Expr::Binary { left, right, .. } => {
            both(
                deeds_seen(scope, left, calls, other),
                deeds_seen(scope, right, calls, other),
            )
        }
        Expr::Postfix { operand, .. } => both(
            step_deeds(scope, operand, calls, other),
            deeds_seen(scope, operand, calls, other),
        ),
        Expr::Index { object, index, .. } => both(
            subscript_deeds(scope, object, calls, other),
            both(
                deeds_seen(scope, object, calls, other),
                deeds_seen(scope, index, calls, other),
            ),
        ),
        Expr::MemberCall {
            object,
            function,
            arguments,
        } => both(
            member_deeds(
                scope,
                object,
                function.name.as_slice(),
                arguments,
                calls,
                other,
            ),
            both(
                deeds_seen(scope, object, calls, other),
                deeds_of_all(scope, arguments, calls, other),
            ),
        ),
        Expr::Member { object, .. } => deeds_seen(scope, object, calls, other),
        Expr::Number { .. } => nothing_done(),
        Expr::Truth { .. } => nothing_done(),
        Expr::Name(_) => nothing_done(),
    }
}

// What arguments do.
#[cycle(deeds)]
pub fn deeds_of_all(scope: &Scope, xs: &[Expr], calls: bool, other: &Expr) -> SeenDeeds
    ensures { result ≡ means.seen (means.spares scope.now calls (expr_of other.now))
        (spec.deeds_of_all scope.now (exprs_of xs.now)) }
{
    let mut done = nothing_done();
    for x in xs {
        done = both(done, deeds_seen(scope, x, calls, other));
    }
    done
}
