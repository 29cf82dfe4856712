//! Containers that end.
ghost use Rattle.std.specs.Prelude.{◌≡◌, List};
ghost use Rattle.sl_model.specs.Memory.Containers.{Memory, end_from};
ghost use Rattle.sl_model.specs.Runs.State.{Pointer as PointerData};
ghost use Rattle.sl_model.specs.LibraryCalls.Values.{Value as ValueData};
ghost use Rattle.sl_slots.specs.Shown.{Holds};
ghost use Rattle.sl_slots.specs.Stored.{Ended};

use crate::motion::Motion;
use crate::moving::move_all;
use crate::store::Store;

impl Store {
    /// Ends the containers from number `first` on: what stands in them is invalidated at a site, the brace of their block.
    pub fn end_from(&mut self, first: usize, site: usize)
        ensures ended { Ended first site self.old self.new }
        ensures shows { (m : Memory) (ps : List PointerData) (vs : List ValueData) → Holds self.old m ps vs →
            Holds self.new (end_from site first m) ps vs }
    {
        self.containers.truncate(first);
        move_all(&Motion::Ends { first, site }, self);
    }
}
