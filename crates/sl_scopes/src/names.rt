//! What names mean in a scope.
ghost use Rattle.std.specs.Prelude.{◌≡◌, option_copied};
ghost use Rattle.sl_typing.specs.Rules as rules;
ghost use Rattle.sl_typing.specs.Scopes as spec;

use sl_base::Name;
use sl_typing::{ExprType, FunctionHead, NamedVariable, Scope};

// Whether the variable has this name.
fn is_variable_named(variable: &NamedVariable, name: &[u8]) -> bool
    ensures { result ≡ spec.is_variable_named name.now variable.now }
{
    match &variable.name {
        None => false,
        Some(own) => own.as_slice() == name,
    }
}

// Whether the function has this name.
fn is_function_named(head: &FunctionHead, name: &[u8]) -> bool
    ensures { result ≡ spec.is_function_named name.now head.now }
{
    head.name.as_slice() == name
}

/// The variable that a name means: the newest one of that name. It takes no memory.
pub fn variable_named<'a>(scope: &'a Scope, name: &[u8]) -> Option<&'a NamedVariable>
    ensures { option_copied result ≡ spec.variable_named scope.now name.now }
{
    scope.variables.as_slice().iter().rev().find(
        |variable| -> bool
            ensures { result ≡ spec.is_variable_named name.entry.now variable.now.now }
        { is_variable_named(variable, name) },
    )
}

/// The function that a name means: the newest one of that name. It takes no memory.
pub fn function_named<'a>(scope: &'a Scope, name: &[u8]) -> Option<&'a FunctionHead>
    ensures { option_copied result ≡ spec.function_named scope.now name.now }
{
    scope.functions.as_slice().iter().rev().find(
        |head| -> bool
            ensures { result ≡ spec.is_function_named name.entry.now head.now.now }
        { is_function_named(head, name) },
    )
}

/// Whether the name is declared in the innermost scope. It takes no memory.
pub fn is_declared(scope: &Scope, name: &[u8]) -> bool
    ensures { result ≡ spec.is_declared scope.now name.now }
{
    scope.variables.as_slice().iter().skip(scope.outer).any(
        |variable| -> bool
            ensures { result ≡ spec.is_variable_named name.entry.now variable.now }
        { is_variable_named(variable, name) },
    )
}

/// The type of the variable that a name means. It takes no memory.
pub fn type_of_name(scope: &Scope, name: &[u8]) -> ExprType
    ensures { result ≡ spec.type_of_name scope.now name.now }
{
    match variable_named(scope, name) {
        None => ExprType::Wrong,
        Some(variable) => variable.variable_type,
    }
}

/// The number of the variable that a name means, among those of its sort, from 0; 0 where it means none. It takes no memory.
pub fn number_of_name(scope: &Scope, name: &[u8]) -> usize
    ensures { result ≡ spec.number_of_name scope.now name.now }
{
    match variable_named(scope, name) {
        None => 0,
        Some(variable) => variable.number,
    }
}

/// The number of the name itself among the names of the text, from 0, where it means a variable. It takes no memory.
pub fn label_of_name(scope: &Scope, name: &[u8]) -> Option<usize>
    ensures { result ≡ spec.label_of_name scope.now name.now }
{
    match variable_named(scope, name) {
        None => None,
        Some(variable) => Some(variable.label),
    }
}

/// Whether no variable of this name is declared. It takes no memory.
pub fn is_unknown_variable(scope: &Scope, name: &[u8]) -> bool
    ensures { result ≡ rules.is_unknown_variable scope.now name.now }
{
    variable_named(scope, name).is_none()
}

/// Whether no variable of this name is declared and no function either. It takes no memory.
pub fn is_unknown_function(scope: &Scope, name: &[u8]) -> bool
    ensures { result ≡ rules.is_unknown_function scope.now name.now }
{
    variable_named(scope, name).is_none() & function_named(scope, name).is_none()
}

/// Whether the name is among these. It takes no memory.
pub fn is_among(name: &[u8], names: &[Name]) -> bool
    ensures { result ≡ spec.is_among name.now names.now }
{
    names.iter().any(|own| own.as_slice() == name)
}
