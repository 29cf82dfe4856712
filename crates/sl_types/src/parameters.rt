//! Parameters of functions.
ghost use Rattle.std.specs.Prelude.{◌≡◌, IfOk, OnOk, map};
ghost use Rattle.sl_typing.specs.Contexts.{declare_parameters};
ghost use Rattle.sl_typing.specs.ProgramFaults.{behind_parameter};
ghost use Rattle.sl_typing.specs.Scopes as scopes;

use sl_base::Items;
use sl_contexts::Known;
use sl_scopes::parameters::{name_of_parameter, parameter_kind, type_of_kind};
use sl_syntax::Param;
use sl_syntax::typed::ParameterKind;
use std::alloc::{AllocError, Global};

/// How parameters take their operands.
pub fn kinds_of(alloc: Global, parameters: &[Param]) -> Result<Items<ParameterKind>, AllocError>
    ensures { IfOk result (λ kinds. kinds ≡ map scopes.parameter_kind parameters.now) }
{
    let mut kinds = Items::new(alloc);
    for parameter in parameters {
        kinds.push(parameter_kind(parameter))?;
    }
    Ok(kinds)
}

// Declares a parameter. Where memory runs out, what is known is no longer that of a place, and is to be let go.
fn declare_one(known: &mut Known, parameter: &Param) -> Result<(), AllocError>
    ensures { OnOk result (known.new ≡ behind_parameter known.old parameter.now) }
{
    let declared_type = type_of_kind(parameter_kind(parameter));
    known.declare(name_of_parameter(parameter), declared_type)?;
    Ok(())
}

/// Declares parameters. Where memory runs out, what is known is no longer that of a place, and is to be let go.
pub fn declare(known: &mut Known, parameters: &[Param]) -> Result<(), AllocError>
    ensures { OnOk result (known.new ≡ declare_parameters parameters.now known.old) }
{
    for parameter in parameters {
        declare_one(known, parameter)?;
    }
    Ok(())
}
