//! Programs that break no rule, typed.
ghost use Rattle.std.specs.Prelude.{◌≡◌, [], IfOk, map};
ghost use Rattle.std.specs.List.{position};
ghost use Rattle.sl_syntax.specs.TreeView.{function_of, program_of};
ghost use Rattle.sl_syntax.specs.TypedView.{typed_of};
ghost use Rattle.sl_typing.specs.ProgramFaults.{program_faults};
ghost use Rattle.sl_typing.specs.Rules.{is_main_name as main_seen};
ghost use Rattle.sl_typing.specs.Typing as spec;

use crate::functions::typed_functions;
use sl_constants::constants;
use sl_contexts::Known;
use sl_syntax::typed::Typed;
use sl_syntax::{Function, Program};
use std::alloc::{AllocError, Global};

// Whether a function is called `main`.
fn is_main(f: &Function) -> bool
    ensures { result ≡ main_seen f.now.name.name }
{
    f.name.name.as_slice() == b"main".as_slice()
}

// The place of `main` among functions, from 0, if one is called so.
fn place_of_main(functions: &[Function]) -> Option<usize>
    ensures { result ≡ position (λ f. main_seen f.name.name) functions.now }
{
    functions.iter().position(
        |f| -> bool
            ensures { result ≡ main_seen f.now.name.name }
        { is_main(f) },
    )
}

// The number of `main`, from 0; where none is called so, how many functions there are.
fn main_number(functions: &[Function]) -> usize
    ensures { result ≡ spec.main_number (map function_of functions.now) }
{
    place_of_main(functions).unwrap_or(functions.len())
}

/// A program that breaks no rule, typed. It fails for want of memory alone.
pub fn typed_program(alloc: Global, p: &Program) -> Result<Typed, AllocError>
    requires { program_faults (program_of p.now) ≡ [] }
    ensures { IfOk result (λ text. typed_of text ≡ spec.typed_program (program_of p.now)) }
{
    let mut known = Known::new(alloc);
    let functions = typed_functions(alloc, &mut known, p.functions.as_slice())?;
    let main = main_number(p.functions.as_slice()) as u16;
    let constants = constants(alloc, p)?;
    let (sites, loops, names) = known.into_parts();
    Ok(Typed {
        functions,
        main,
        sites,
        loops,
        names,
        constants,
    })
}
