//! The numbers of names.
ghost use Rattle.std.specs.Prelude.{◌≡◌, ◌∷◌, IfOk};
ghost use Rattle.sl_syntax.specs.TreeView.{expr_of, exprs_of};
ghost use Rattle.sl_syntax.specs.TypedView as view;
ghost use Rattle.sl_typing.specs.Numbering as spec;
ghost use Rattle.sl_typing.specs.Order.{parameters_of};
ghost use Rattle.sl_typing.specs.Scopes as scopes;
ghost use Rattle.sl_numbering.specs.Numbered.{IsNumbered};

use crate::variables::variable;
use sl_base::Items;
use sl_scopes::names::{function_named, label_of_name, number_of_name, type_of_name};
use sl_syntax::typed::{Expr as TypedExpr, ParameterKind};
use sl_syntax::{Expr, Identifier};
use sl_typing::Scope;
use std::alloc::{AllocError, Global};

/// The number of the variable that a name means, among those of its sort; 0 where it means none. It takes no memory.
pub fn variable_number(scope: &Scope, name: &[u8]) -> u8
    requires { IsNumbered scope.now }
    ensures { result ≡ scopes.number_of_name scope.now name.now }
{
    number_of_name(scope, name) as u8
}

/// The number of the name itself, where it means a variable. It takes no memory.
pub fn name_number(scope: &Scope, name: &[u8]) -> Option<u16>
    requires { IsNumbered scope.now }
    ensures { result ≡ scopes.label_of_name scope.now name.now }
{
    match label_of_name(scope, name) {
        None => None,
        Some(label) => Some(label as u16),
    }
}

/// The number of a function; 0 where there is none. It takes no memory.
pub fn function_number(scope: &Scope, name: &[u8]) -> u16
    requires { IsNumbered scope.now }
    ensures { result ≡ spec.number_of_function (scopes.function_named scope.now name.now) }
{
    match function_named(scope, name) {
        None => 0,
        Some(head) => head.number as u16,
    }
}

/// The parameters of a function; none where there is none. It takes no memory.
pub fn parameters<'a>(scope: &'a Scope, name: &[u8]) -> &'a [ParameterKind]
    ensures { result.now ≡ parameters_of (scopes.function_named scope.now name.now) }
{
    match function_named(scope, name) {
        None => &[],
        Some(head) => head.parameters.as_slice(),
    }
}

/// A use of the variable that a name means, at the name. It takes no memory.
pub fn variable_use(scope: &Scope, name: &Identifier) -> TypedExpr
    requires { IsNumbered scope.now }
    ensures { view.expr_of result
        ≡ spec.variable (scopes.type_of_name scope.now name.now.name) (scopes.number_of_name scope.now name.now.name) name.now.place
        (spec.label_in (scopes.label_of_name scope.now name.now.name)) }
{
    let bytes = name.name.as_slice();
    let label = name_number(scope, bytes).unwrap_or(0);
    variable(
        type_of_name(scope, bytes),
        variable_number(scope, bytes),
        name.place,
        label,
    )
}

/// The number of an expression's name, where it is a plain name. It takes no memory.
pub fn told(scope: &Scope, x: &Expr) -> Option<u16>
    requires { IsNumbered scope.now }
    ensures { result ≡ spec.told scope.now (expr_of x.now) }
{
    match x {
        Expr::Name(name) => name_number(scope, name.name.as_slice()),
        _ => None,
    }
}

/// A number of a name, if there is one, and those of expressions behind it.
pub fn told_behind(
    alloc: Global,
    first: Option<u16>,
    scope: &Scope,
    xs: &[Expr],
) -> Result<Items<Option<u16>>, AllocError>
    requires { IsNumbered scope.now }
    ensures { IfOk result (λ names. names ≡ first ∷ spec.told_all scope.now (exprs_of xs.now)) }
{
    let mut names = Items::new(alloc);
    names.push(first)?;
    for x in xs {
        names.push(told(scope, x))?;
    }
    Ok(names)
}
