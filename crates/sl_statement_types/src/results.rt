//! What a function gives back.
ghost use Rattle.std.specs.Prelude.{◌≡◌, Option};
ghost use Rattle.sl_syntax.specs.Tree.{Expr as Tree};
ghost use Rattle.sl_syntax.specs.TreeView.{expr_of};
ghost use Rattle.std.specs.Prelude.{option_map};
ghost use Rattle.sl_typing.specs.StatementFaults as spec;

use sl_syntax::Expr;
use sl_syntax::typed::ParameterKind;
use sl_typing::ExprType;

/// Whether a value of this type goes to what a function gives. What a function that gives nothing gives back is left to another rule.
pub fn goes_to_result(given: Option<ParameterKind>, value: ExprType) -> bool
    ensures { result ≡ spec.goes_to_result given value }
{
    match given {
        Some(ParameterKind::Value(_)) => value.is_number(),
        Some(ParameterKind::Iterator { is_const, form }) => value.goes_into(is_const, form),
        _ => true,
    }
}

/// Whether a value is given back where there is no result, or none where there is one.
pub fn wrong_return(given: Option<ParameterKind>, value: &Option<Expr>) -> bool
    ensures { result ≡ spec.wrong_return given (option_map expr_of value.now) }
{
    match value {
        None => given.is_some(),
        Some(_) => given.is_none(),
    }
}
