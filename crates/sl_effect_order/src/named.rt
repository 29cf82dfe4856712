//! The variables that a part changes, by their names.
ghost use Rattle.std.specs.Prelude.{◌≡◌, option_copied, option_to_list};
ghost use Rattle.sl_syntax.specs.Tree as s;
ghost use Rattle.sl_syntax.specs.TreeView.{expr_of, exprs_of};
ghost use Rattle.sl_typing.specs.Order as spec;

use sl_base::Name;
use sl_expr_types::bare_name;
use sl_syntax::Expr;

// The variable that `++` or `--` changes, or whose element it changes.
#[tactic(auto, using(crate::proofs::TreeLaws::tree_views))]
pub fn moved_name(e: &Expr) -> Option<&Name>
    ensures { option_to_list (option_copied result) ≡ spec.moved_names (expr_of e.now) }
{
    match e {
        Expr::Name(name) => Some(&name.name),
        Expr::Parentheses { inner, .. } => bare_name(inner),
        Expr::Index { object, .. } => bare_name(object),
        Expr::MemberCall { object, .. } => bare_name(object),
        _ => None,
    }
}

// The name of the first argument.
pub fn first_name(xs: &[Expr]) -> Option<&Name>
    ensures { option_to_list (option_copied result) ≡ spec.first_name (exprs_of xs.now) }
{
    match xs.first() {
        Some(first) => bare_name(first),
        None => None,
    }
}

// The arguments of the call that stands last.
pub fn last_arguments(xs: &[Expr]) -> &[Expr]
    ensures { exprs_of result.now ≡ spec.last_arguments (exprs_of xs.now) }
{
    match xs.last() {
        Some(last) => arguments_of(last),
        None => &[],
    }
}

// The arguments of a call of an algorithm.
#[tactic(auto, using(crate::proofs::TreeLaws::tree_views))]
fn arguments_of(e: &Expr) -> &[Expr]
    ensures { exprs_of result.now ≡ spec.last_arguments (s.with (expr_of e.now) s.none) }
{
    match e {
        Expr::LibraryCall { arguments, .. } => arguments,
        _ => &[],
    }
}
