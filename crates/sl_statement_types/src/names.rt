//! Rules on names and limits.
ghost use Rattle.std.specs.Prelude.{◌≡◌, ℕ, List, Option};
ghost use Rattle.sl_typing.specs.declared.rules.TheConstants as rule;
ghost use Rattle.sl_typing.specs.Contexts.{Context, with_hidden};
ghost use Rattle.sl_typing.specs.Faults as faults;
ghost use Rattle.sl_typing.specs.Scopes as scopes;
ghost use Rattle.sl_typing.specs.StatementFaults as spec;
ghost use Rattle.sl_typing.specs.Typing.{first_of};

use crate::fault::broken;
use sl_base::Place;
use sl_base::limits::{SITES, STATEMENTS};
use sl_contexts::Known;
use sl_scopes::names::{is_declared, is_unknown_variable};
use sl_scopes::sorts::{one_passes_limit, two_pass_limit};
use sl_syntax::Identifier;
use sl_typing::rules::{
    DECLARED_TWICE, TOO_MANY_SITES, TOO_MANY_STATEMENTS, TOO_MANY_VARIABLES, UNKNOWN_NAME,
};
use sl_typing::{ExprType, Fault, Scope, is_const};

/// A variable that isn't declared. It takes no memory.
pub fn name_fault(known: &Known, name: &Identifier) -> Option<Fault>
    ensures { result ≡ first_of (spec.name_faults known.now name.now) }
{
    broken(
        is_unknown_variable(known.scope(), name.name.as_slice()),
        name.place,
        UNKNOWN_NAME,
    )
}

/// A name that is declared in the innermost scope already. It takes no memory.
pub fn twice_fault(known: &Known, name: &Identifier) -> Option<Fault>
    ensures { result ≡ first_of (spec.twice_faults known.now name.now) }
{
    broken(
        is_declared(known.scope(), name.name.as_slice()),
        name.place,
        DECLARED_TWICE,
    )
}

/// The first site past the limit, if a site stands here. It takes no memory.
pub fn site_fault(known: &Known, is_site: bool, place: Place) -> Option<Fault>
    ensures { result ≡ first_of (spec.site_faults known.now is_site place) }
{
    broken(is_site & (known.sites() == SITES), place, TOO_MANY_SITES)
}

/// The first statement past the limit, where a statement begins here. It takes no memory.
pub fn statement_fault(known: &Known, place: Place) -> Option<Fault>
    ensures { result ≡ first_of (spec.statement_faults known.now place) }
{
    broken(known.statements() == STATEMENTS, place, TOO_MANY_STATEMENTS)
}

/// A variable past a limit, where one of this type is declared, whatever its name. It takes no memory.
pub fn limit_fault(scope: &Scope, variable_type: ExprType, place: Place) -> Option<Fault>
    ensures { (name : Option (List ℕ)) (label : ℕ) → result ≡ first_of (faults.broken
        (scopes.passes_some_limit scope.now (scopes.with_variable name label variable_type scope.now)) place rule.TOO_MANY_VARIABLES) }
{
    broken(
        one_passes_limit(scope, variable_type),
        place,
        TOO_MANY_VARIABLES,
    )
}

// Whether the two hidden iterators of a range-for over what is of this type pass a limit.
fn hidden_pass_limit(known: &Known, over: ExprType) -> bool
    ensures { (h : Context) → h.scope ≡ known.now.scope → result ≡ scopes.passes_some_limit known.now.scope (with_hidden over h).scope }
{
    match over {
        ExprType::Container(access, form) => {
            two_pass_limit(known.scope(), ExprType::Iterator(is_const(access), form))
        }
        _ => false,
    }
}

/// A variable past a limit, where the two hidden iterators of a range-for over what is of this type come into scope. It takes no memory.
pub fn hidden_limit_fault(known: &Known, over: ExprType, place: Place) -> Option<Fault>
    ensures { result ≡ first_of (spec.limit_faults known.now (with_hidden over known.now) place) }
{
    broken(hidden_pass_limit(known, over), place, TOO_MANY_VARIABLES)
}
