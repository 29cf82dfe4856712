//! Which expressions are still: their order beside a change doesn't matter.
ghost use Rattle.std.specs.Prelude.{◌≡◌, option_copied, option_to_list};
ghost use Rattle.std.specs.List.{list_all};
ghost use Rattle.sl_syntax.specs.TreeView.{expr_of};
ghost use Rattle.sl_typing.specs.Order as spec;
ghost use Rattle.sl_typing.specs.Scopes as scopes;
ghost use Rattle.sl_effect_order.specs.Means.Seen as means;

use sl_base::Name;
use sl_expr_types::type_of;
use sl_scopes::names::type_of_name;
use sl_syntax::Expr;
use sl_typing::Scope;

// `begin`, `end`, `size` or `empty`.
fn is_quiet(name: &[u8]) -> bool
    ensures { result ≡ spec.is_quiet name.now }
{
    (b"begin".as_slice() == name)
        | ((b"end".as_slice() == name)
            | ((b"size".as_slice() == name) | (b"empty".as_slice() == name)))
}

// Whether a name is the one that is asked about, if there is one.
fn is_asked(name: &[u8], asked: Option<&Name>) -> bool
    ensures { result ≡ scopes.is_among name.now (option_to_list (option_copied asked.entry)) }
{
    match asked {
        Some(own) => own.as_slice() == name,
        None => false,
    }
}

// Whether an expression has only literals, operators on numbers and names that are no references, and not the name that is
// asked about; where `calls` says so, also the calls above on names.
#[tactic(auto, using(crate::proofs::StillLaws::still_laws))]
pub fn is_still(scope: &Scope, asked: Option<&Name>, calls: bool, e: &Expr) -> bool
    ensures { result ≡ spec.is_still scope.now (option_to_list (option_copied asked.entry)) calls
        (expr_of e.now) }
{
    match e {
        Expr::Number { .. } => true,
        Expr::Truth { .. } => true,
        Expr::Name(name) => {
            let own = name.name.as_slice();
            !is_asked(own, asked) & !type_of_name(scope, own).is_int_reference()
        }
        Expr::Parentheses { inner, .. } => is_still(scope, asked, calls, inner),
        Expr::Prefix { operand, .. } => {
            type_of(scope, operand).is_number() & is_still(scope, asked, calls, operand)
        }
        Expr::Postfix { operand, .. } => {
            type_of(scope, operand).is_number() & is_still(scope, asked, calls, operand)
        }
        Expr::Binary { left, right, .. } => {
            type_of(scope, left).is_number()
                & type_of(scope, right).is_number()
                & is_still(scope, asked, calls, left)
                & is_still(scope, asked, calls, right)
        }
        Expr::MemberCall { function, .. } => calls & is_quiet(function.name.as_slice()),
        Expr::Call { .. } => false,
        Expr::LibraryCall { .. } => false,
        Expr::Index { .. } => false,
        Expr::Member { .. } => false,
    }
}

// Whether an expression is still for a variable that is changed, if there is one.
#[tactic(auto, using(crate::proofs::StillLaws::spares_one))]
pub fn spares(scope: &Scope, changed: Option<&Name>, calls: bool, other: &Expr) -> bool
    ensures { result ≡ list_all (means.spares scope.now calls (expr_of other.now))
        (option_to_list (option_copied changed.entry)) }
{
    match changed {
        Some(name) => is_still(scope, Some(name), calls, other),
        None => true,
    }
}
