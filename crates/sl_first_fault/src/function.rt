//! Functions, and the program.
ghost use Rattle.std.specs.Prelude.{◌≡◌, ◌==◌, ◌&&◌, ◌++◌, [], ◌∷◌, IfOk, codes, not, is_some, length, map};
ghost use Rattle.std.specs.List.{list_any};
ghost use Rattle.sl_syntax.specs.TreeView.{function_of, program_of, items_of};
ghost use Rattle.sl_typing.specs.declared.rules.TheConstants as rule;
ghost use Rattle.sl_typing.specs.Contexts.{with_sites};
ghost use Rattle.sl_typing.specs.Faults.{broken as fault};
ghost use Rattle.sl_typing.specs.Flow as flow;
ghost use Rattle.sl_typing.specs.ProgramFaults as spec;
ghost use Rattle.sl_typing.specs.Rules.{is_main_name as main_seen};
ghost use Rattle.sl_typing.specs.Scopes.{function_named as function_seen, is_among};
ghost use Rattle.sl_typing.specs.Sites.{brace_site, declares_container as declares};
ghost use Rattle.sl_typing.specs.StatementFaults.{items_faults, site_faults};
ghost use Rattle.sl_typing.specs.Typing.{first_of};
ghost use Rattle.sl_first_fault.specs.Means.Steps.{Answers};

use crate::faults::stop_at;
use crate::parameters::{parameters, result_fault};
use crate::statement::{brace, items};
use crate::stop::Stop;
use sl_base::limits::FUNCTIONS;
use sl_base::{Place, Scalar};
use sl_candidates::is_algorithm_name;
use sl_contexts::Known;
use sl_scopes::names::function_named;
use sl_statement_types::broken;
use sl_syntax::{Block, Function, Param, Program, ResultType};
use sl_typing::{Fault, rules};
use std::alloc::{AllocError, Global};

// Whether the name is `main`.
fn is_main_name(name: &[u8]) -> bool
    ensures { result ≡ main_seen name.now }
{
    name == b"main".as_slice()
}

// Whether the head of a function is `int ..()`.
fn is_main_head(given: &ResultType, params: &[Param]) -> bool
    ensures { result ≡ spec.is_main_head given.now params.now }
{
    match given {
        ResultType::Scalar(Scalar::Int) => params.is_empty(),
        _ => false,
    }
}

// Whether the name is one that all containers have.
fn is_container_name(name: &[u8]) -> bool
    ensures { result ≡ is_among name.now (codes "begin" ∷ codes "end" ∷ codes "size" ∷ codes "empty" ∷ codes "swap" ∷ []) }
{
    (b"begin".as_slice() == name)
        | ((b"end".as_slice() == name)
            | ((b"size".as_slice() == name)
                | ((b"empty".as_slice() == name) | (b"swap".as_slice() == name))))
}

// Whether the name is one of the library's.
fn is_library_name(name: &[u8]) -> bool
    ensures { result ≡ spec.is_library_name name.now }
{
    is_algorithm_name(name) | is_container_name(name)
}

// The first of its own rules that a function breaks.
#[tactic(auto, using(crate::proofs::StepLaws::first_laws))]
fn function_fault(known: &Known, x: &Function) -> Option<Fault>
    ensures { result ≡ first_of
        (fault (is_some (function_seen known.now.scope x.now.name.name)) x.now.name.place rule.DECLARED_TWICE
        ++ fault (main_seen x.now.name.name && not (spec.is_main_head x.now.result x.now.params.items)) x.now.name.place rule.NO_MAIN
        ++ fault (spec.is_library_name x.now.name.name) x.now.name.place rule.LIBRARY_NAME
        ++ fault (length known.now.scope.functions == FUNCTIONS) x.now.name.place rule.TOO_MANY_FUNCTIONS) }
{
    let name = x.name.name.as_slice();
    let place = x.name.place;
    let scope = known.scope();
    let is_wrong_main = is_main_name(name) & !is_main_head(&x.result, &x.params);
    broken(
        function_named(scope, name).is_some(),
        place,
        rules::DECLARED_TWICE,
    )
    .or(broken(is_wrong_main, place, rules::NO_MAIN))
    .or(broken(is_library_name(name), place, rules::LIBRARY_NAME))
    .or(broken(
        scope.functions.len() == FUNCTIONS,
        place,
        rules::TOO_MANY_FUNCTIONS,
    ))
}

// The head of a function.
fn head(alloc: Global, known: &mut Known, x: &Function) -> Result<(), Stop>
    ensures { Answers result
        (spec.result_faults x.now.result ++ spec.parameter_faults (flow.before_parameters known.old (function_of x.now)) 0 x.now.params.items)
        known.new (flow.in_function known.old (function_of x.now)) }
{
    stop_at(result_fault(&x.result))?;
    known.before_parameters(alloc, x)?;
    parameters(known, &x.params)
}

// The body of a function.
fn body(alloc: Global, known: &mut Known, x: &Block) -> Result<(), Stop>
    ensures { let xs = items_of x.now.items.items in Answers result
        (items_faults known.old xs ++ site_faults (flow.after_items known.old xs) (declares xs) x.now.close)
        known.new (with_sites (brace_site xs x.now.close) (flow.after_items known.old xs)) }
{
    items(alloc, known, &x.items)?;
    brace(known, &x.items, x.close)
}

// A function.
fn function(alloc: Global, known: &mut Known, x: &Function) -> Result<(), Stop>
    ensures { Answers result (spec.function_faults known.old (function_of x.now)) known.new (flow.after_function known.old (function_of x.now)) }
{
    let own = function_fault(known, x);
    head(alloc, known, x)?;
    body(alloc, known, &x.body)?;
    stop_at(own)
}

// Functions.
fn functions(alloc: Global, known: &mut Known, xs: &[Function]) -> Result<(), Stop>
    ensures { Answers result
        (spec.functions_faults known.old (map function_of xs.now))
        known.new (flow.after_functions known.old (map function_of xs.now)) }
{
    for x in xs {
        function(alloc, known, x)?;
    }
    Ok(())
}

// Whether one of the functions is `main`.
fn some_main(xs: &[Function]) -> bool
    ensures { result ≡ list_any (λ x. main_seen x.name.name) xs.now }
{
    xs.iter().any(
        |x| -> bool
            ensures { result ≡ main_seen x.now.name.name }
        { is_main_name(x.name.name.as_slice()) },
    )
}

// Whether none of them is.
fn has_no_main(xs: &[Function]) -> bool
    ensures { result ≡ not (list_any spec.is_main (map function_of xs.now)) }
{
    !some_main(xs)
}

// A program, of which nothing is known before.
fn program(alloc: Global, known: &mut Known, x: &Program) -> Result<(), Stop>
    requires { known.old ≡ spec.start }
    ensures { Answers result (spec.program_faults (program_of x.now)) known.new (flow.after_functions spec.start (program_of x.now)) }
{
    functions(alloc, known, &x.functions)?;
    stop_at(broken(has_no_main(&x.functions), Place::FIRST, rules::NO_MAIN))
}

/// The first rule of typing that the program breaks, with its place; none where it breaks no rule. It fails for want of memory alone.
pub fn first_fault(alloc: Global, x: &Program) -> Result<Option<Fault>, AllocError>
    ensures { IfOk result (λ fault. fault ≡ first_of (spec.program_faults (program_of x.now))) }
{
    let mut known = Known::new(alloc);
    match program(alloc, &mut known, x) {
        Ok(()) => Ok(None),
        Err(Stop::Memory) => Err(AllocError),
        Err(Stop::At(fault)) => Ok(Some(fault)),
    }
}
