//! Functions that break no rule, typed.
ghost use Rattle.std.specs.Prelude.{◌≡◌, [], IfOk, OnOk, map};
ghost use Rattle.sl_syntax.specs.TreeView.{function_of};
ghost use Rattle.sl_syntax.specs.TypedView as view;
ghost use Rattle.sl_typing.specs.Flow as flow;
ghost use Rattle.sl_typing.specs.ProgramFaults.{function_faults, functions_faults};
ghost use Rattle.sl_typing.specs.Typing as spec;
ghost use Rattle.sl_number_limits.specs.Fits.{Fits};

use crate::parameters::{declare, kinds_of};
use sl_base::Name;
use sl_block_numbering::block;
use sl_contexts::Known;
use sl_scopes::parameters::result_kind;
use sl_syntax::{Function, typed};
use std::alloc::{AllocError, Global};

// Comes to the start of a function's body. Where memory runs out, what is known is no longer that of a place, and is to
// be let go.
fn begin_body(alloc: Global, known: &mut Known, f: &Function) -> Result<(), AllocError>
    ensures { OnOk result (known.new ≡ flow.in_function known.old (function_of f.now)) }
{
    known.before_parameters(alloc, f)?;
    declare(known, f.params.as_slice())
}

// A function, typed; then is known what is known behind it.
fn typed_function(
    alloc: Global,
    known: &mut Known,
    f: &Function,
) -> Result<typed::Function, AllocError>
    requires fits { Fits known.old }
    requires kept { function_faults known.old (function_of f.now) ≡ [] }
    ensures typed { IfOk result (λ x. view.function_of x ≡ spec.typed_function known.old (function_of f.now)) }
    ensures behind { OnOk result (known.new ≡ flow.after_function known.old (function_of f.now)) }
{
    begin_body(alloc, known, f)?;
    let parameters = kinds_of(alloc, f.params.as_slice())?;
    let body = block(alloc, known, f.body.items.as_slice(), f.body.close)?;
    let variables = known.variables(alloc)?;
    Ok(typed::Function {
        name: Name::new(f.name.name.as_slice()),
        parameters,
        result: result_kind(&f.result),
        variables,
        body,
        close: f.body.close,
    })
}

/// Functions, typed; then is known what is known behind them. It fails for want of memory alone.
pub fn typed_functions(
    alloc: Global,
    known: &mut Known,
    functions: &[Function],
) -> Result<Vec<typed::Function>, AllocError>
    requires fits { Fits known.old }
    requires kept { functions_faults known.old (map function_of functions.now) ≡ [] }
    ensures typed { IfOk result (λ v. map view.function_of v.items
        ≡ spec.typed_functions known.old (map function_of functions.now)) }
    ensures behind { OnOk result (known.new ≡ flow.after_functions known.old (map function_of functions.now)) }
{
    let mut done = Vec::new(alloc);
    for f in functions {
        let function = typed_function(alloc, known, f)?;
        done.push(function)?;
    }
    Ok(done)
}
