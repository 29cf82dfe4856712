//! What stands before a function's body.
ghost use Rattle.std.specs.Prelude.{◌≡◌, ◌==◌, ◌++◌};
ghost use Rattle.sl_typing.specs.declared.rules.TheConstants as rule;
ghost use Rattle.sl_typing.specs.Contexts.{declare_parameters};
ghost use Rattle.sl_typing.specs.Faults.{broken as fault};
ghost use Rattle.sl_typing.specs.ProgramFaults as spec;
ghost use Rattle.sl_typing.specs.Scopes.{name_of_parameter as name_seen};
ghost use Rattle.sl_typing.specs.StatementFaults.{limit_faults, twice_faults};
ghost use Rattle.sl_typing.specs.Typing.{first_of};
ghost use Rattle.sl_first_fault.specs.Means.Steps.{Answers};

use crate::faults::stop_at;
use crate::stop::Stop;
use crate::variables::past_limit;
use sl_base::limits::PARAMETERS;
use sl_contexts::Known;
use sl_scopes::parameters::{is_iterator_name, name_of_parameter, parameter_kind, type_of_kind};
use sl_statement_types::{broken, twice_fault};
use sl_syntax::{IteratorType, Param, ResultType};
use sl_typing::{Fault, rules};

// The name behind `::` that is none of an iterator type.
fn iterator_fault(x: &IteratorType) -> Option<Fault>
    ensures { result ≡ first_of (spec.iterator_faults x.now) }
{
    broken(
        !is_iterator_name(x.name.name.as_slice()),
        x.name.place,
        rules::WRONG_TYPE,
    )
}

/// The first rule that the type of what a function gives breaks.
pub fn result_fault(x: &ResultType) -> Option<Fault>
    ensures { result ≡ first_of (spec.result_faults x.now) }
{
    match x {
        ResultType::Void => None,
        ResultType::Scalar(_) => None,
        ResultType::Iterator(iterator) => iterator_fault(iterator),
    }
}

// The first rule that the type of a parameter breaks.
fn type_fault(x: &Param) -> Option<Fault>
    ensures { result ≡ first_of (spec.type_faults x.now) }
{
    match x {
        Param::Value { .. } => None,
        Param::Reference { .. } => None,
        Param::Container { .. } => None,
        Param::ConstContainer { .. } => None,
        Param::Iterator { iterator, .. } => iterator_fault(iterator),
    }
}

// A parameter that passes the limit of variables.
fn parameter_past_limit(known: &Known, x: &Param) -> Option<Fault>
    ensures { result ≡ first_of (limit_faults known.now (spec.behind_parameter known.now x.now) (name_seen x.now).place) }
{
    past_limit(known, name_of_parameter(x), type_of_kind(parameter_kind(x)))
}

// The first rule that a parameter breaks, of which so many stand before.
#[tactic(auto, using(crate::proofs::StepLaws::first_laws))]
fn parameter_fault(known: &Known, before: usize, x: &Param) -> Option<Fault>
    ensures { result ≡ first_of
        (twice_faults known.now (name_seen x.now)
        ++ spec.type_faults x.now
        ++ limit_faults known.now (spec.behind_parameter known.now x.now) (name_seen x.now).place
        ++ fault (before == PARAMETERS) (name_seen x.now).place rule.TOO_MANY_PARAMETERS) }
{
    let name = name_of_parameter(x);
    twice_fault(known, name)
        .or(type_fault(x))
        .or(parameter_past_limit(known, x))
        .or(broken(before == PARAMETERS, name.place, rules::TOO_MANY_PARAMETERS))
}

// A parameter.
fn parameter(known: &mut Known, before: usize, x: &Param) -> Result<(), Stop>
    ensures { Answers result
        (twice_faults known.old (name_seen x.now)
        ++ spec.type_faults x.now
        ++ limit_faults known.old (spec.behind_parameter known.old x.now) (name_seen x.now).place
        ++ fault (before == PARAMETERS) (name_seen x.now).place rule.TOO_MANY_PARAMETERS)
        known.new (spec.behind_parameter known.old x.now) }
{
    stop_at(parameter_fault(known, before, x))?;
    known.declare(name_of_parameter(x), type_of_kind(parameter_kind(x)))?;
    Ok(())
}

/// The parameters of a function.
pub fn parameters(known: &mut Known, xs: &[Param]) -> Result<(), Stop>
    ensures { Answers result (spec.parameter_faults known.old 0 xs.now) known.new (declare_parameters xs.now known.old) }
{
    for (before, x) in xs.iter().enumerate() {
        parameter(known, before, x)?;
    }
    Ok(())
}
