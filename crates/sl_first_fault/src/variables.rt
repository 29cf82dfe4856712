//! Variables that are declared.
ghost use Rattle.std.specs.Prelude.{◌≡◌, ◌++◌, List};
ghost use Rattle.sl_typing.specs.declared.fault.Fault.{Fault};
ghost use Rattle.sl_typing.specs.Contexts.{Context, declare};
ghost use Rattle.sl_typing.specs.StatementFaults.{limit_faults};
ghost use Rattle.sl_typing.specs.Typing.{first_of};
ghost use Rattle.sl_first_fault.specs.Means.Steps.{Answers};

use crate::faults::stop_at;
use crate::stop::Stop;
use sl_contexts::Known;
use sl_statement_types::limit_fault;
use sl_syntax::Identifier;
use sl_typing::{ExprType, Fault};

/// One more variable of this type that passes the limit, from where the scope is the same.
pub fn past_limit(known: &Known, name: &Identifier, variable_type: ExprType) -> Option<Fault>
    ensures { (g : Context) → known.now.scope ≡ g.scope →
        result ≡ first_of (limit_faults g (declare name.now variable_type known.now) name.now.place) }
{
    limit_fault(known.scope(), variable_type, name.place)
}

/// Declares a variable, behind what it is made from, where its own rules hold.
pub fn declare_variable(
    known: &mut Known,
    own: Option<Fault>,
    name: &Identifier,
    variable_type: ExprType,
) -> Result<(), Stop>
    ensures { (g : Context) (xs : List Fault) → known.old.scope ≡ g.scope → own ≡ first_of xs →
        Answers result (xs ++ limit_faults g (declare name.now variable_type known.old) name.now.place) known.new
        (declare name.now variable_type known.old) }
{
    let past = past_limit(known, name, variable_type);
    stop_at(own.or(past))?;
    known.declare(name, variable_type)?;
    Ok(())
}
