ghost use Rattle.std.specs.Prelude.{◌≡◌, ◌^◌, ◌<◌, All, IfOk};
ghost use Rattle.sl_contexts.specs.VariableView.{variable_seen, variables_seen};

use sl_base::{Items, Place};
use sl_syntax::typed::{Variable, VariableKind};
use std::alloc::{AllocError, Global};

/// A variable that the present function declares.
#[derive(Clone, Copy)]
pub struct DeclaredVariable {
    pub kind: VariableKind,
    /// The number of its name among the names of the text, from 0.
    pub name: usize,
    pub place: Place,
}

// The variable as those that read the typed text see it.
fn typed_variable(variable: DeclaredVariable) -> Variable
    requires { variable.name < 2 ^ 16 }
    ensures { result ≡ variable_seen variable }
{
    Variable {
        kind: variable.kind,
        name: variable.name as u16,
        place: variable.place,
    }
}

/// The variables as those that read the typed text see them. The numbers of their names fit there.
pub fn typed_variables(
    alloc: Global,
    variables: &[DeclaredVariable],
) -> Result<Items<Variable>, AllocError>
    requires { All (λ v. v.name < 2 ^ 16) (variables_seen variables.now) }
    ensures { IfOk result (λ typed. typed ≡ variables_seen variables.now) }
{
    let mut typed = Items::new(alloc);
    for variable in variables {
        typed.push(typed_variable(*variable))?;
    }
    Ok(typed)
}
