//! The numbers of sites.
ghost use Rattle.std.specs.Prelude.{◌≡◌, ◌+◌, ◌≤◌};
ghost use Rattle.sl_syntax.specs.TreeView.{expr_of};
ghost use Rattle.sl_typing.specs.Sites as spec;

use sl_base::Site;
use sl_base::limits::SITES;
use sl_expr_types::{is_site, site_count};
use sl_syntax::Expr;
use sl_typing::Scope;

/// The number of sites in an expression, of which there are few enough. It takes no memory.
pub fn sites_of(scope: &Scope, x: &Expr) -> usize
    requires { spec.site_count scope.now (expr_of x.now) ≤ SITES }
    ensures { result ≡ spec.site_count scope.now (expr_of x.now) }
{
    site_count(scope, x)
}

/// The number of sites before a node's own word, where so many stand before the node and all fit. It takes no memory.
#[tactic(auto, using(crate::proofs::SiteLaws::site_laws), unfolding(crate::specs::Opened::at_word))]
pub fn at_word(scope: &Scope, before: usize, x: &Expr) -> usize
    requires { before + spec.site_count scope.now (expr_of x.now) ≤ SITES }
    ensures { result ≡ spec.at_word scope.now before (expr_of x.now) }
{
    match x {
        Expr::Index { object, .. } => before + sites_of(scope, object),
        Expr::MemberCall { object, .. } => before + sites_of(scope, object),
        _ => before,
    }
}

/// The number of sites before a node's arguments, where so many stand before the node and all fit. It takes no memory.
#[tactic(auto, using(crate::proofs::SiteLaws::site_laws), unfolding(crate::specs::Opened::inside, crate::specs::Opened::own_site))]
pub fn inside(scope: &Scope, before: usize, x: &Expr) -> usize
    requires { before + spec.site_count scope.now (expr_of x.now) ≤ SITES }
    ensures { result ≡ spec.inside scope.now before (expr_of x.now) }
{
    let word = at_word(scope, before, x);
    if is_site(scope, x) { word + 1 } else { word }
}

/// The number of the site that a node is, if it is one, where so many sites stand before the node and all fit. It takes
/// no memory.
#[tactic(auto, using(crate::proofs::SiteLaws::site_laws), unfolding(crate::specs::Opened::site_number))]
pub fn site_number(scope: &Scope, before: usize, x: &Expr) -> Option<Site>
    requires { before + spec.site_count scope.now (expr_of x.now) ≤ SITES }
    ensures { result ≡ spec.site_number scope.now before (expr_of x.now) }
{
    if is_site(scope, x) {
        Some(Site::new(at_word(scope, before, x) as u16))
    } else {
        None
    }
}
