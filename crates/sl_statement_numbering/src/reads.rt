//! Reads.
ghost use Rattle.std.specs.Prelude.{◌≡◌, IfOk, map};
ghost use Rattle.sl_typing.specs.Scopes as scopes;
ghost use Rattle.sl_typing.specs.StatementNumbering as spec;
ghost use Rattle.sl_number_limits.specs.Fits.{Fits};
ghost use Rattle.sl_numbering.specs.Numbered.{IsNumbered};

use sl_base::Items;
use sl_contexts::Known;
use sl_numbering::variable_number;
use sl_syntax::{Identifier, Read};
use sl_typing::Scope;
use std::alloc::{AllocError, Global};

// The numbers of variables.
fn numbers_of(
    alloc: Global,
    scope: &Scope,
    variables: &[Identifier],
) -> Result<Items<u8>, AllocError>
    requires { IsNumbered scope.now }
    ensures { IfOk result (λ xs. xs ≡ map (λ x. scopes.number_of_name scope.now x.name) variables.now) }
{
    let mut numbers = Items::new(alloc);
    for variable in variables {
        numbers.push(variable_number(scope, variable.name.as_slice()))?;
    }
    Ok(numbers)
}

/// The numbers of the variables of a read.
pub fn read_numbers(alloc: Global, known: &Known, read: &Read) -> Result<Items<u8>, AllocError>
    requires { Fits known.now }
    ensures { IfOk result (λ xs. xs ≡ spec.read_numbers known.now read.now) }
{
    numbers_of(alloc, known.scope(), read.variables.as_slice())
}
