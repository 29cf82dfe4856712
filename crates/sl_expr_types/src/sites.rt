//! Which nodes are sites, and how many sites an expression has.
ghost use Rattle.std.specs.Prelude.{◌≡◌, ◌+◌, length};
ghost use Rattle.sl_expr_types.specs.Capped.{capped};
ghost use Rattle.sl_expr_types.specs.Means.Counts.{one_if};
ghost use Rattle.sl_syntax.specs.TreeView.{expr_of, exprs_of};
ghost use Rattle.sl_typing.specs.Sites as spec;

use crate::appenders::appends;
use crate::expression::type_of;
use crate::looks::is_plain;
use sl_base::limits::SITES;
use sl_candidates::{member_kills, subscript_kills};
use sl_syntax::Expr;
use sl_typing::{ExprType, Scope};

/// Whether a member call of so many arguments on an object of this type is a site. It takes no memory.
pub fn is_member_site(object: ExprType, name: &[u8], arguments: usize) -> bool
    ensures { result ≡ spec.is_member_site object name.now arguments }
{
    match object {
        ExprType::Container(_, form) => member_kills(form, name, arguments),
        _ => false,
    }
}

/// Whether `[ ]` on an object of this type is a site. It takes no memory.
pub fn is_subscript_site(object: ExprType) -> bool
    ensures { result ≡ spec.is_subscript_site object }
{
    match object {
        ExprType::Container(_, form) => subscript_kills(form),
        _ => false,
    }
}

/// Whether a node is a site. It takes no memory.
#[tactic(auto, using(crate::proofs::SiteLaws::is_site_laws), unfolding(crate::specs::Opened::is_site))]
pub fn is_site(scope: &Scope, e: &Expr) -> bool
    ensures { result ≡ spec.is_site scope.now (expr_of e.now) }
{
    match e {
        Expr::MemberCall {
            object,
            function,
            arguments,
        } => {
            let own = type_of(scope, object);
            let count = arguments.as_slice().len();
            is_plain(object) & is_member_site(own, function.name.as_slice(), count)
        }
        Expr::Index { object, .. } => is_subscript_site(type_of(scope, object)),
        Expr::LibraryCall {
            function,
            arguments,
        } => appends(function.name.as_slice(), arguments),
        _ => false,
    }
}

/// The sum of two numbers of sites; where it passes the number that a text may have by one or more, that number and one. It takes no memory.
#[tactic(auto, unfolding(crate::specs::Capped::capped))]
pub fn capped_sum(m: usize, n: usize) -> usize
    ensures { result ≡ capped (m + n) }
{
    m.saturating_add(n).min(SITES + 1)
}

// One, if a node is a site.
fn one_if(is_site: bool) -> usize
    ensures { result ≡ one_if is_site }
{
    if is_site { 1 } else { 0 }
}

/// The number of sites in an expression; where it passes the number that a text may have by one or more, that number and one. It takes no memory.
#[cycle(site_count)]
#[tactic(auto, using(crate::proofs::CountLaws::count_laws))]
pub fn site_count(scope: &Scope, e: &Expr) -> usize
    ensures { result ≡ capped (spec.site_count scope.now (expr_of e.now)) }
{
    match e {
        Expr::Call { arguments, .. } => site_count_of_all(scope, arguments),
        Expr::LibraryCall { arguments, .. } => capped_sum(
            one_if(is_site(scope, e)),
            site_count_of_all(scope, arguments),
        ),
        Expr::Parentheses { inner, .. } => site_count(scope, inner),
        Expr::Prefix { operand, .. } => site_count(scope, operand),
        Expr::Binary { left, right, .. } => {
            capped_sum(site_count(scope, left), site_count(scope, right))
        }
        Expr::Postfix { operand, .. } => site_count(scope, operand),
        Expr::Index { object, index, .. } => capped_sum(
            capped_sum(site_count(scope, object), one_if(is_site(scope, e))),
            site_count(scope, index),
        ),
        Expr::MemberCall {
            object,
            arguments,
            ..
        } => capped_sum(
            capped_sum(site_count(scope, object), one_if(is_site(scope, e))),
            site_count_of_all(scope, arguments),
        ),
        Expr::Member { object, .. } => site_count(scope, object),
        Expr::Number { .. } => 0,
        Expr::Truth { .. } => 0,
        Expr::Name(_) => 0,
    }
}

/// That of expressions, likewise. It takes no memory.
#[cycle(site_count)]
pub fn site_count_of_all(scope: &Scope, xs: &[Expr]) -> usize
    ensures { result ≡ capped (length (spec.sites_in_all scope.now (exprs_of xs.now))) }
{
    let mut count = 0;
    for x in xs {
        count = capped_sum(count, site_count(scope, x));
    }
    count
}
