//! Variables that come into scope.
ghost use Rattle.std.specs.Prelude.{◌≡◌, IfOk, OnErr, OnOk};
ghost use Rattle.sl_typing.specs.Contexts as contexts;
ghost use Rattle.sl_typing.specs.Scopes as scopes;

use crate::names::copy_of;
use sl_base::{Items, Name};
use sl_scopes::sorts::{count_of, sort_of};
use sl_syntax::typed::VariableKind;
use sl_typing::{ExprType, NamedVariable, Scope};
use std::alloc::{AllocError, Global};

/// What a variable of this type is to those that read the typed text.
pub fn variable_kind(variable_type: ExprType) -> VariableKind
    ensures { result ≡ contexts.variable_kind variable_type }
{
    match variable_type {
        ExprType::Container(_, _) => VariableKind::Container,
        ExprType::Iterator(_, _) => VariableKind::Iterator,
        ExprType::IntReference(_) => VariableKind::Reference,
        ExprType::EntryReference(_) => VariableKind::Reference,
        _ => VariableKind::Scalar,
    }
}

/// Brings a variable of this type into scope, with its name and the name's number. Where memory runs out, the scope stays as it was.
pub fn bring_in(
    scope: &mut Scope,
    name: Option<Name>,
    label: usize,
    variable_type: ExprType,
) -> Result<(), AllocError>
    ensures brought { OnOk result (scope.new ≡ scopes.with_variable name label variable_type scope.old) }
    ensures kept { OnErr result (scope.new ≡ scope.old) }
{
    let number = count_of(sort_of(variable_type), scope);
    scope.variables.push(NamedVariable {
        name,
        label,
        number,
        variable_type,
    })?;
    Ok(())
}

/// The same variable. It takes no memory.
pub fn same_variable(variable: &NamedVariable) -> NamedVariable
    ensures { result ≡ variable.now }
{
    let name = match &variable.name {
        None => None,
        Some(name) => Some(copy_of(name)),
    };
    NamedVariable {
        name,
        label: variable.label,
        number: variable.number,
        variable_type: variable.variable_type,
    }
}

/// The same variables.
pub fn same_variables(
    alloc: Global,
    variables: &[NamedVariable],
) -> Result<Items<NamedVariable>, AllocError>
    ensures { IfOk result (λ copied. copied ≡ variables.now) }
{
    let mut copied = Items::new(alloc);
    for variable in variables {
        copied.push(same_variable(variable))?;
    }
    Ok(copied)
}
