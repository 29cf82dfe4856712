ghost use Rattle.std.specs.Prelude.{◌≡◌};

use crate::spot::Spot;
use sl_base::{Name, Place};
use sl_kind::Kills;

/// A need of a call that may not hold: the place of the call, the number of the kind of the failure, the name of the
/// call, the number of the argument whose need it is, from 0 for the object, the argument's name where it has one, and
/// for an iterator or a reference the sites at which it may have been invalidated.
#[derive(Drop)]
pub struct Warning {
    pub place: Place,
    pub kind: u8,
    pub call: Name,
    pub argument: u8,
    pub name: Option<Name>,
    pub killers: Kills,
}

impl Warning {
    ghost use Rattle.sl_warnings.specs.Views.{warning_of, sites_in};
    ghost use Rattle.sl_warnings.specs.Means.Kept.{spot_of};
    ghost use Rattle.sl_warnings.specs.Reports.{with_killers};

    // What tells it apart.
    pub fn spot(&self) -> Spot
        ensures { result ≡ spot_of (warning_of self.now) }
    {
        Spot {
            line: self.place.line,
            col: self.place.col,
            kind: self.kind,
            argument: self.argument,
        }
    }

    // Adds killers.
    pub fn join(&mut self, killers: &Kills)
        ensures { warning_of self.new ≡ with_killers (warning_of self.old) (sites_in killers.now) }
    {
        self.killers = self.killers.union(killers);
    }
}
