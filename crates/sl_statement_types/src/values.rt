//! What statements ask of expressions.
ghost use Rattle.std.specs.Prelude.{◌≡◌, ◌&&◌, option_map};
ghost use Rattle.sl_syntax.specs.TreeView.{cond_of, expr_of, out_of};
ghost use Rattle.sl_typing.specs.Ranges as ranges;
ghost use Rattle.sl_typing.specs.Sites as sites;
ghost use Rattle.sl_typing.specs.StatementFaults as spec;
ghost use Rattle.sl_statement_types.specs.Means.Bound.{is_bindable};

use crate::results::goes_to_result;
use sl_contexts::Known;
use sl_expr_types::{is_plain, type_of};
use sl_syntax::{Assignment, Cond, Expr, Out, Selector};
use sl_typing::Scope;

/// Whether what is printed isn't a number. It takes no memory.
pub fn wrong_out(known: &Known, out: &Out) -> bool
    ensures { result ≡ spec.wrong_out known.now (out_of out.now) }
{
    match out {
        Out::Text { .. } => false,
        Out::EndLine { .. } => false,
        Out::Value(e) => !type_of(known.scope(), e).is_number(),
    }
}

/// Whether what is tested isn't a number. It takes no memory.
pub fn wrong_cond(known: &Known, cond: &Cond) -> bool
    ensures { result ≡ spec.wrong_cond known.now (cond_of cond.now) }
{
    match cond {
        Cond::Read(_) => false,
        Cond::NotRead { .. } => false,
        Cond::Value(e) => !type_of(known.scope(), e).is_number(),
    }
}

/// Whether a value, which may be missing, isn't a number. It takes no memory.
pub fn wrong_value(known: &Known, value: &Option<Expr>) -> bool
    ensures { result ≡ spec.wrong_value known.now (option_map expr_of value.now) }
{
    match value {
        None => false,
        Some(e) => !type_of(known.scope(), e).is_number(),
    }
}

/// Whether a returned value, which may be missing, doesn't fit. It takes no memory.
pub fn wrong_result(known: &Known, value: &Option<Expr>) -> bool
    ensures { result ≡ spec.wrong_result known.now (option_map expr_of value.now) }
{
    match value {
        None => false,
        Some(e) => !goes_to_result(known.scope().result, type_of(known.scope(), e)),
    }
}

// Whether an expression may be bound to a reference by its looks.
fn is_bindable(e: &Expr) -> bool
    ensures { result ≡ is_bindable (expr_of e.now) }
{
    match e {
        Expr::Number { .. } => true,
        Expr::Truth { .. } => true,
        Expr::Name(_) => false,
        Expr::Call { .. } => true,
        Expr::LibraryCall { .. } => true,
        Expr::Parentheses { .. } => false,
        Expr::Prefix { .. } => true,
        Expr::Binary { .. } => true,
        Expr::Postfix { .. } => true,
        Expr::Index { .. } => true,
        Expr::MemberCall { .. } => true,
        Expr::Member { selector, .. } => matches!(selector, Selector::Arrow),
    }
}

/// Whether a reference may be bound to an expression. It takes no memory.
#[tactic(auto, using(crate::proofs::BoundLaws::bound_by_looks))]
pub fn may_be_bound(scope: &Scope, e: &Expr) -> bool
    ensures { result ≡ ranges.may_be_bound scope.now (expr_of e.now) }
{
    is_bindable(e) & type_of(scope, e).is_element()
}

/// Whether the `=` of an assignment to this is a site. It takes no memory.
pub fn is_assignment_site(scope: &Scope, left: &Expr, operator: Assignment) -> bool
    ensures { result ≡ sites.is_assignment_site scope.now (expr_of left.now) operator }
{
    match operator {
        Assignment::Set => is_plain(left) & type_of(scope, left).is_container(),
        Assignment::Update(_) => false,
    }
}
