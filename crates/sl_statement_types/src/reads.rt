//! What is read from standard input.
ghost use Rattle.std.specs.Prelude.{◌≡◌, not, find, flat_map, option_copied};
ghost use Rattle.std.specs.List.{list_all};
ghost use Rattle.sl_typing.specs.Rules.{is_unknown_variable as unknown};
ghost use Rattle.sl_typing.specs.StatementFaults as spec;
ghost use Rattle.sl_typing.specs.Typing.{first_of};

use crate::fault::{broken, earlier};
use sl_base::Scalar;
use sl_contexts::Known;
use sl_scopes::names::{is_unknown_variable, type_of_name};
use sl_syntax::{Identifier, Read};
use sl_typing::rules::{UNKNOWN_NAME, WRONG_TYPE};
use sl_typing::{Fault, Scope};

// The first variable that isn't declared.
fn first_unknown<'a>(scope: &Scope, variables: &'a [Identifier]) -> Option<&'a Identifier>
    ensures { option_copied result ≡ find (λ x. unknown scope.now x.name) variables.now }
{
    variables.iter().find(
        |variable| -> bool
            ensures { result ≡ unknown scope.entry.now variable.now.now.name }
        { is_unknown_variable(scope, variable.name.as_slice()) },
    )
}

/// The first of these names that isn't that of a variable. It takes no memory.
#[tactic(auto, using(crate::proofs::ReadLaws::first_unknown_name))]
pub fn names_fault(known: &Known, variables: &[Identifier]) -> Option<Fault>
    ensures { result ≡ first_of (flat_map (spec.name_faults known.now) variables.now) }
{
    match first_unknown(known.scope(), variables) {
        None => None,
        Some(variable) => Some(Fault {
            place: variable.place,
            rule: UNKNOWN_NAME,
        }),
    }
}

// Whether a name means a variable of type int.
fn reads_int(known: &Known, name: &Identifier) -> bool
    ensures { result ≡ spec.reads_int known.now name.now }
{
    type_of_name(known.scope(), name.name.as_slice()).is_exactly(Scalar::Int)
}

// Whether each name means one.
fn all_read_int(known: &Known, variables: &[Identifier]) -> bool
    ensures { result ≡ list_all (spec.reads_int known.now) variables.now }
{
    variables.iter().all(
        |variable| -> bool
            ensures { result ≡ spec.reads_int known.entry.now variable.now }
        { reads_int(known, variable) },
    )
}

/// The first rule that a read breaks. It takes no memory.
pub fn read_fault(known: &Known, read: &Read) -> Option<Fault>
    ensures { result ≡ first_of (spec.read_faults known.now read.now) }
{
    let variables = read.variables.as_slice();
    earlier(
        names_fault(known, variables),
        broken(!all_read_int(known, variables), read.place, WRONG_TYPE),
    )
}
