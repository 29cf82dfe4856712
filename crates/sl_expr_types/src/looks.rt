//! What an expression is by its look.
ghost use Rattle.std.specs.Prelude.{◌≡◌, option_copied, option_to_list};
ghost use Rattle.sl_syntax.specs.TreeView.{expr_of};
ghost use Rattle.sl_expr_types.specs.Means.Sides.{left_side_at};
ghost use Rattle.sl_typing.specs.Looks as spec;
ghost use Rattle.sl_typing.specs.declared.scope.Scope.{Scope};
ghost use Rattle.sl_typing.specs.TypeOf as calls;
ghost use Rattle.sl_typing.specs.TypeOf.{type_of};

use sl_base::{Name, Place};
use sl_syntax::Expr;
use sl_typing::ExprType;

/// Whether the name is `first`. It takes no memory.
pub fn is_first(name: &[u8]) -> bool
    ensures { result ≡ calls.is_first name.now }
{
    name == "first".as_bytes()
}

/// Whether the name is `first` or `second`. It takes no memory.
pub fn is_part_name(name: &[u8]) -> bool
    ensures { result ≡ calls.is_part_name name.now }
{
    is_first(name) | (name == "second".as_bytes())
}

/// The place of a node. It takes no memory.
#[tactic(auto, using(crate::proofs::Views::expr_views))]
pub fn place_of(e: &Expr) -> Place
    ensures { result ≡ spec.place_of (expr_of e.now) }
{
    match e {
        Expr::Number { place, .. } => *place,
        Expr::Truth { place, .. } => *place,
        Expr::Name(name) => name.place,
        Expr::Call { function, .. } => function.place,
        Expr::LibraryCall { function, .. } => function.place,
        Expr::Parentheses { place, .. } => *place,
        Expr::Prefix { place, .. } => *place,
        Expr::Binary { place, .. } => *place,
        Expr::Postfix { place, .. } => *place,
        Expr::Index { place, .. } => *place,
        Expr::MemberCall { function, .. } => function.place,
        Expr::Member { place, .. } => *place,
    }
}

/// Whether it is a name without parentheses. It takes no memory.
#[tactic(auto, using(crate::proofs::Views::expr_views))]
pub fn is_plain(e: &Expr) -> bool
    ensures { result ≡ spec.is_plain (expr_of e.now) }
{
    matches!(e, Expr::Name(_))
}

/// That name. It takes no memory.
#[tactic(auto, using(crate::proofs::Views::expr_views))]
pub fn plain_name(e: &Expr) -> Option<&Name>
    ensures { option_to_list (option_copied result) ≡ spec.plain_name (expr_of e.now) }
{
    match e {
        Expr::Name(name) => Some(&name.name),
        _ => None,
    }
}

/// That name, and also one in parentheses. It takes no memory.
#[tactic(auto, using(crate::proofs::Views::expr_views))]
pub fn bare_name(e: &Expr) -> Option<&Name>
    ensures { option_to_list (option_copied result) ≡ spec.bare_name (expr_of e.now) }
{
    match e {
        Expr::Name(name) => Some(&name.name),
        Expr::Parentheses { inner, .. } => bare_name(inner),
        _ => None,
    }
}

// Whether an expression of this type is a left side.
#[tactic(auto, using(crate::proofs::Views::expr_views))]
fn is_left_side_at(e: &Expr, own: ExprType) -> bool
    ensures { result ≡ left_side_at (expr_of e.now) own }
{
    match e {
        Expr::Name(_) => true,
        Expr::Parentheses { .. } => false,
        _ => own.is_element(),
    }
}

/// Whether it is a left side, where it has this type: a variable, or an element without parentheses around it. It takes no memory.
pub fn is_left_side_of(e: &Expr, own: ExprType) -> bool
    ensures { (g : Scope) → type_of g (expr_of e.now) ≡ own → result ≡ spec.is_left_side g (expr_of e.now) }
{
    is_left_side_at(e, own)
}
