//! What calls need to know of a function.
ghost use Rattle.std.specs.Prelude.{◌≡◌, IfOk, map};
ghost use Rattle.sl_typing.specs.Scopes as scopes;

use crate::names::copy_of;
use sl_base::Items;
use sl_scopes::parameters::{parameter_kind, result_kind};
use sl_syntax::typed::ParameterKind;
use sl_syntax::{Function, Param};
use sl_typing::FunctionHead;
use std::alloc::{AllocError, Global};

/// The kinds of parameters.
pub fn kinds_of(alloc: Global, parameters: &[Param]) -> Result<Items<ParameterKind>, AllocError>
    ensures { IfOk result (λ kinds. kinds ≡ map scopes.parameter_kind parameters.now) }
{
    let mut kinds = Items::new(alloc);
    for parameter in parameters {
        kinds.push(parameter_kind(parameter))?;
    }
    Ok(kinds)
}

/// What calls need to know of a function, in front of which so many functions stand.
pub fn head_of(
    alloc: Global,
    number: usize,
    function: &Function,
) -> Result<FunctionHead, AllocError>
    ensures { IfOk result (λ head. head ≡ record {
      number = number;
      name = function.now.name.name;
      parameters = map scopes.parameter_kind function.now.params.items;
      result = scopes.result_kind function.now.result;
    }) }
{
    let parameters = kinds_of(alloc, function.params.as_slice())?;
    Ok(FunctionHead {
        number,
        name: copy_of(&function.name.name),
        parameters,
        result: result_kind(&function.result),
    })
}
