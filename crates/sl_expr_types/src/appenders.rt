//! Algorithms that append to a container.
ghost use Rattle.std.specs.Prelude.{◌≡◌};
ghost use Rattle.sl_syntax.specs.TreeView.{expr_of, exprs_of};
ghost use Rattle.sl_typing.specs.TypeOf as spec;

use sl_candidates::has_output;
use sl_syntax::Expr;

/// Whether it is a call of `std::back_inserter`. It takes no memory.
#[tactic(auto, using(crate::proofs::Views::expr_views))]
pub fn is_back_inserter(e: &Expr) -> bool
    ensures { result ≡ spec.is_back_inserter (expr_of e.now) }
{
    match e {
        Expr::LibraryCall { function, .. } => {
            function.name.as_slice() == "back_inserter".as_bytes()
        }
        _ => false,
    }
}

// Whether the last of these is one.
fn end_in_appender(xs: &[Expr]) -> bool
    ensures { result ≡ spec.end_in_appender (exprs_of xs.now) }
{
    match xs.last() {
        None => false,
        Some(last) => is_back_inserter(last),
    }
}

/// Whether the algorithm of this name appends to a container, called with these arguments. It takes no memory.
#[tactic(auto, using(crate::proofs::LastLaws::sizes))]
pub fn appends(name: &[u8], xs: &[Expr]) -> bool
    ensures { result ≡ spec.appends name.now (exprs_of xs.now) }
{
    has_output(name, xs.len()) & end_in_appender(xs)
}
