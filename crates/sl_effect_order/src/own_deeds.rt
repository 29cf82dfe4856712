//! What a node does by itself, beside its parts.
ghost use Rattle.std.specs.Prelude.{◌≡◌, codes};
ghost use Rattle.std.specs.List.{list_all, zip};
ghost use Rattle.std.specs.Str.{bytes_eq};
ghost use Rattle.sl_syntax.specs.declared.tree.expr.Expr.{Expr as ExprCode};
ghost use Rattle.sl_syntax.specs.declared.typed.parameter.ParameterKind.{ParameterKind as Kind};
ghost use Rattle.sl_syntax.specs.TreeView.{expr_of, exprs_of};
ghost use Rattle.sl_typing.specs.Order as spec;
ghost use Rattle.sl_typing.specs.Scopes as scopes;
ghost use Rattle.sl_effect_order.specs.Means.Seen as means;

use crate::changes::{changes_argument, member_changes, subscript_changes};
use crate::named::{first_name, last_arguments, moved_name};
use crate::seen_deeds::{SeenDeeds, changing, nothing_done, writing};
use crate::still::spares;
use sl_candidates::writes_elements;
use sl_expr_types::{appends, bare_name, type_of};
use sl_scopes::names::function_named;
use sl_syntax::typed::ParameterKind;
use sl_syntax::{Expr, PrefixOperator};
use sl_typing::Scope;

// What a call of the program's own does, as another part sees it.
pub fn call_deeds(
    scope: &Scope,
    name: &[u8],
    arguments: &[Expr],
    calls: bool,
    other: &Expr,
) -> SeenDeeds
    ensures { result ≡ means.seen (means.spares scope.now calls (expr_of other.now))
        (spec.changing (spec.handed_names
        (spec.parameters_of (scopes.function_named scope.now name.now)) (exprs_of arguments.now))) }
{
    changing(spares_handed(scope, name, arguments, calls, other))
}

// Whether the other part is still for each variable that a call of the program's own may change.
fn spares_handed(scope: &Scope, name: &[u8], arguments: &[Expr], calls: bool, other: &Expr) -> bool
    ensures { result ≡ list_all (means.spares scope.now calls (expr_of other.now))
        (spec.handed_names (spec.parameters_of (scopes.function_named scope.now name.now))
        (exprs_of arguments.now)) }
{
    match function_named(scope, name) {
        Some(head) => spares_all(scope, head.parameters.as_slice(), arguments, calls, other),
        None => true,
    }
}

// Whether it is still for each that is bound to a reference which isn't const.
fn spares_all(
    scope: &Scope,
    kinds: &[ParameterKind],
    arguments: &[Expr],
    calls: bool,
    other: &Expr,
) -> bool
    ensures { result ≡ list_all (λ (p : Kind × ExprCode).
        means.spares_argument (means.spares scope.now calls (expr_of other.now)) p.0 (expr_of p.1))
        (zip kinds.now arguments.now) }
{
    kinds.iter().zip(arguments).all(|(kind, argument)| spares_argument(
        scope, *kind, argument, calls, other,
    ))
}

// Whether it is still for an argument that a parameter of this kind takes.
fn spares_argument(
    scope: &Scope,
    kind: ParameterKind,
    argument: &Expr,
    calls: bool,
    other: &Expr,
) -> bool
    ensures { result ≡ means.spares_argument (means.spares scope.now calls (expr_of other.now)) kind
        (expr_of argument.now) }
{
    if changes_argument(kind) {
        spares(scope, bare_name(argument), calls, other)
    } else {
        true
    }
}

// What an algorithm does.
pub fn algorithm_deeds(
    scope: &Scope,
    name: &[u8],
    arguments: &[Expr],
    calls: bool,
    other: &Expr,
) -> SeenDeeds
    ensures { result ≡ means.seen (means.spares scope.now calls (expr_of other.now))
        (spec.algorithm_deeds name.now (exprs_of arguments.now)) }
{
    if is_advance(name) {
        changing(spares(scope, first_name(arguments), calls, other))
    } else if appends(name, arguments) {
        changing(spares(scope, first_name(last_arguments(arguments)), calls, other))
    } else if writes_elements(name, arguments.len()) {
        writing()
    } else {
        nothing_done()
    }
}

// Whether it is `advance`.
fn is_advance(name: &[u8]) -> bool
    ensures { result ≡ bytes_eq name.now (codes "advance") }
{
    name == "advance".as_bytes()
}

// What an operator before its operand does.
pub fn prefix_deeds(
    scope: &Scope,
    operator: PrefixOperator,
    operand: &Expr,
    calls: bool,
    other: &Expr,
) -> SeenDeeds
    ensures { result ≡ means.seen (means.spares scope.now calls (expr_of other.now))
        (spec.prefix_deeds operator (expr_of operand.now)) }
{
    match operator {
        PrefixOperator::Increment | PrefixOperator::Decrement => step_deeds(
            scope, operand, calls, other,
        ),
        _ => nothing_done(),
    }
}

// What `++` or `--` does.
pub fn step_deeds(scope: &Scope, operand: &Expr, calls: bool, other: &Expr) -> SeenDeeds
    ensures { result ≡ means.seen (means.spares scope.now calls (expr_of other.now))
        (spec.changing (spec.moved_names (expr_of operand.now))) }
{
    changing(spares(scope, moved_name(operand), calls, other))
}

// What `[ ]` does.
pub fn subscript_deeds(scope: &Scope, object: &Expr, calls: bool, other: &Expr) -> SeenDeeds
    ensures { result ≡ means.seen (means.spares scope.now calls (expr_of other.now))
        (spec.subscript_deeds scope.now (expr_of object.now)) }
{
    if subscript_changes(type_of(scope, object)) {
        changing(spares(scope, bare_name(object), calls, other))
    } else {
        nothing_done()
    }
}

// What a member call does.
pub fn member_deeds(
    scope: &Scope,
    object: &Expr,
    name: &[u8],
    arguments: &[Expr],
    calls: bool,
    other: &Expr,
) -> SeenDeeds
    ensures { result ≡ means.seen (means.spares scope.now calls (expr_of other.now))
        (spec.member_deeds scope.now (expr_of object.now) name.now (exprs_of arguments.now)) }
{
    if member_changes(type_of(scope, object), name, arguments.len()) {
        changing(
            spares(scope, bare_name(object), calls, other)
                & spares_containers(scope, arguments, calls, other),
        )
    } else {
        nothing_done()
    }
}

// Whether the other part is still for each container among arguments.
fn spares_containers(scope: &Scope, arguments: &[Expr], calls: bool, other: &Expr) -> bool
    ensures { result ≡ list_all (λ (x : ExprCode).
        means.spares_container (means.spares scope.now calls (expr_of other.now)) scope.now (expr_of x))
        arguments.now }
{
    arguments
        .iter()
        .all(|argument| spares_container(scope, argument, calls, other))
}

// Whether it is still for an argument, if that is a container.
fn spares_container(scope: &Scope, argument: &Expr, calls: bool, other: &Expr) -> bool
    ensures { result ≡ means.spares_container (means.spares scope.now calls (expr_of other.now)) scope.now
        (expr_of argument.now) }
{
    if type_of(scope, argument).is_container() {
        spares(scope, bare_name(argument), calls, other)
    } else {
        true
    }
}
