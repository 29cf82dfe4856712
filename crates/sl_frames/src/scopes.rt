//! Scopes that begin and end.
ghost use Rattle.std.specs.Prelude.{◌≡◌, List, take};
ghost use Rattle.sl_model.specs.LibraryCalls.Values.{Value as ValueData};
ghost use Rattle.sl_model.specs.Memory.Containers.{Memory, end_from};
ghost use Rattle.sl_model.specs.Runs.Good.{IsGood};
ghost use Rattle.sl_model.specs.Runs.State.{Pointer as PointerData, State, leave};
ghost use Rattle.sl_slots.specs.Shown.{Holds};
ghost use Rattle.sl_frames.specs.Followed.{Follows, IsFront, IsMarked};
ghost use Rattle.sl_frames.specs.Changed.{StacksCut, frame_cut, frame_heights, heights_of};
ghost use Rattle.sl_frames.specs.Followed.{frame_of};

use crate::heights::Heights;
use crate::variables::Variables;

/// Where a scope began: how many variables the function in progress had in scope, and how many all calls in progress
/// had.
#[derive(Clone, Copy)]
pub struct Mark {
    pub in_scope: Heights,
    pub in_all: Heights,
}

impl Variables {
    /// A scope begins here.
    pub fn mark(&self) -> Mark
        ensures in_scope { result.in_scope ≡ frame_heights self.now.frame }
        ensures in_all { result.in_all ≡ heights_of self.now }
        ensures shows { (s : State) (held : List ValueData) → Follows self.now s held → IsMarked result s }
    {
        Mark {
            in_scope: self.frame.heights(),
            in_all: self.heights(),
        }
    }

    /// The scope that began at a mark ends at a site, the brace of its block: its variables go, and what stood in its
    /// containers is invalidated there.
    pub fn leave(&mut self, mark: &Mark, site: usize)
        ensures frame { frame_of self.new.frame ≡ frame_cut mark.now.in_scope (frame_of self.old.frame) }
        ensures cut { StacksCut mark.now.in_all site self.old self.new }
        ensures shows { (start s : State) (held : List ValueData) → IsMarked mark.now start →
            IsFront start.frame s.frame → IsGood (leave site start s) → Follows self.old s held →
            Follows self.new (leave site start s) held }
    {
        self.frame.cut(&mark.in_scope);
        self.cut(&mark.in_all, site);
    }

    /// The variables from these locations on end at a site; the frame stays.
    pub fn cut(&mut self, heights: &Heights, site: usize)
        ensures frame { self.new.frame ≡ self.old.frame }
        ensures cut { StacksCut heights.now site self.old self.new }
        ensures shows { (m : Memory) (ps : List PointerData) (held : List ValueData) → Holds self.old.store m ps held →
            Holds self.new.store (end_from site heights.now.containers m) (take heights.now.pointers ps) held }
    {
        self.scalars.truncate(heights.scalars);
        self.store.pointers.truncate(heights.pointers);
        self.store.end_from(heights.containers, site);
    }
}
