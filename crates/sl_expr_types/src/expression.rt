//! The types of expressions.
ghost use Rattle.std.specs.Prelude.{◌≡◌};
ghost use Rattle.sl_expr_types.specs.Few.{few};
ghost use Rattle.sl_syntax.specs.TreeView.{expr_of, exprs_of};
ghost use Rattle.sl_typing.specs.Looks.{is_left_side as left_side};
ghost use Rattle.sl_typing.specs.TypeOf as spec;

use crate::appenders::appends;
use crate::calls::{algorithm_call_type, member_call_type};
use crate::looks::{is_first, is_left_side_of};
use crate::nodes::{
    binary_type, own_call_type, prefix_type, selected_type, subscript_type, type_of_use,
};
use crate::types::{Types, empty, pushed};
use sl_base::Scalar;
use sl_scopes::names::{function_named, type_of_name};
use sl_syntax::Expr;
use sl_typing::{ExprType, Scope};

/// The type of an expression, where it breaks no rule. It takes no memory.
#[cycle(type_of)]
#[tactic(auto, using(crate::proofs::TypeLaws::type_laws))]
pub fn type_of(scope: &Scope, e: &Expr) -> ExprType
    ensures { result ≡ spec.type_of scope.now (expr_of e.now) }
{
    match e {
        Expr::Number { .. } => ExprType::Scalar(Scalar::Int),
        Expr::Truth { .. } => ExprType::Scalar(Scalar::Bool),
        Expr::Name(name) => type_of_use(type_of_name(scope, name.name.as_slice())),
        Expr::Call { function, .. } => {
            own_call_type(function_named(scope, function.name.as_slice()))
        }
        Expr::LibraryCall {
            function,
            arguments,
        } => {
            let name = function.name.as_slice();
            algorithm_call_type(appends(name, arguments), name, &types_of(scope, arguments))
        }
        Expr::Parentheses { inner, .. } => type_of(scope, inner),
        Expr::Prefix {
            operator,
            operand,
            ..
        } => prefix_type(*operator, type_of(scope, operand)),
        Expr::Binary {
            left,
            operator,
            right,
            ..
        } => binary_type(*operator, type_of(scope, left), type_of(scope, right)),
        Expr::Postfix { operand, .. } => type_of(scope, operand).value(),
        Expr::Index { object, .. } => subscript_type(type_of(scope, object)),
        Expr::MemberCall {
            object,
            function,
            arguments,
        } => {
            let own = type_of(scope, object);
            member_call_type(own, function.name.as_slice(), &types_of(scope, arguments))
        }
        Expr::Member {
            object,
            selector,
            member,
            ..
        } => {
            let own = type_of(scope, object);
            selected_type(*selector, own, is_first(member.name.as_slice()))
        }
    }
}

/// The types of expressions, if they are no more than a call of the library may have. It takes no memory.
#[cycle(type_of)]
pub fn types_of(scope: &Scope, xs: &[Expr]) -> Option<Types>
    ensures { result ≡ few (spec.types_of scope.now (exprs_of xs.now)) }
{
    let mut types = empty();
    for x in xs {
        types = pushed(types, type_of(scope, x));
    }
    types
}

/// Whether an expression is a left side: a variable, or an element without parentheses around it. It takes no memory.
pub fn is_left_side(scope: &Scope, e: &Expr) -> bool
    ensures { result ≡ left_side scope.now (expr_of e.now) }
{
    is_left_side_of(e, type_of(scope, e))
}
