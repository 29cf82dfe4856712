//! Where the walk stops.
ghost use Rattle.sl_first_fault.specs.Means.Steps.{Checks};

use crate::stop::Stop;
use sl_typing::Fault;

/// Stops at the fault, if there is one.
pub fn stop_at(fault: Option<Fault>) -> Result<(), Stop>
    ensures { Checks result fault }
{
    match fault {
        Some(fault) => Err(Stop::At(fault)),
        None => Ok(()),
    }
}
