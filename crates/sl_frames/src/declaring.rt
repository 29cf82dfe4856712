//! Variables that come into scope.
ghost use Rattle.std.specs.Prelude.{◌≡◌, ◌<◌, List, OnOk, length};
ghost use Rattle.sl_model.specs.LibraryCalls.Values.{Value as ValueData};
ghost use Rattle.sl_model.specs.Runs.Exec.{range_start};
ghost use Rattle.sl_model.specs.Runs.Good.{IsGood};
ghost use Rattle.sl_model.specs.Runs.State.{Pointer as PointerData, State, mark_in};
ghost use Rattle.sl_model.specs.Runs.State.{new_container, new_pointer, new_scalar};
ghost use Rattle.sl_slots.specs.declared.slot.Slot.TheVariants.{Stands};
ghost use Rattle.sl_slots.specs.Shown.{pointer_of};
ghost use Rattle.sl_slots.specs.Stored.{elements_at};
ghost use Rattle.sl_frames.specs.Followed.{Follows, Mirrors};
ghost use Rattle.sl_frames.specs.Changed.{ContainerCame, PointerCame, RangeCame, ScalarCame};

use crate::variables::{ScalarVariable, Variables};
use sl_slots::{Pointer, Slot, Store};
use std::alloc::AllocError;

impl Variables {
    /// A new scalar comes into scope. After AllocError nothing is said.
    pub fn declare_scalar(&mut self, scalar: ScalarVariable) -> Result<(), AllocError>
        ensures came { OnOk result (ScalarCame scalar.ty scalar.value self.old self.new) }
        ensures shows { OnOk result ((s : State) (held : List ValueData) → Follows self.old s held →
            Follows self.new (new_scalar scalar.ty scalar.value s) held) }
    {
        self.frame.scalars.push(self.scalars.len())?;
        self.scalars.push(scalar)?;
        Ok(())
    }

    /// A new iterator or reference comes into scope, which holds what was used before. After AllocError nothing is
    /// said.
    pub fn declare_pointer(&mut self, pointer: Pointer) -> Result<(), AllocError>
        ensures came { OnOk result (PointerCame pointer self.old self.new) }
        ensures shows { OnOk result ((s : State) (held : List ValueData) (p : PointerData) →
            mark_in p < s.memory.fresh → pointer_of s.memory p ≡ pointer → Follows self.old s held →
            Follows self.new (new_pointer p s) held) }
    {
        self.frame.pointers.push(self.store.pointers.len())?;
        self.store.pointers.push(pointer)?;
        Ok(())
    }

    /// The container at a location comes into scope; it is no other one in scope. After AllocError nothing is said.
    pub fn declare_container(&mut self, location: usize) -> Result<(), AllocError>
        ensures came { OnOk result (ContainerCame location self.old self.new) }
        ensures shows { OnOk result ((s : State) (held : List ValueData) → IsGood (new_container location s) →
            Follows self.old s held → Follows self.new (new_container location s) held) }
    {
        self.frame.containers.push(location)?;
        Ok(())
    }

    /// The two hidden iterators of a range-for come into scope, the begin and the end of the container at a location,
    /// which has to be there. After AllocError nothing is said.
    pub fn declare_range(&mut self, location: usize) -> Result<(), AllocError>
        ensures came { OnOk result (RangeCame location self.old self.new) }
        ensures shows { OnOk result ((s : State) (held : List ValueData) → location < length s.memory.conts →
            Follows self.old s held → Follows self.new (range_start location s) held) }
    {
        let end = size_of(&self.store, location);
        self.declare_pointer(Pointer::Iterator(standing(location, 0)))?;
        self.declare_pointer(Pointer::Iterator(standing(location, end)))?;
        Ok(())
    }
}

// How many elements a container has, 0 where it isn't there.
fn size_of(store: &Store, container: usize) -> usize
    ensures { result ≡ length (elements_at store.now container) }
{
    if container < store.containers.len() {
        store.size(container)
    } else {
        0
    }
}

// The slot of a place.
fn standing(container: usize, place: usize) -> Slot
    ensures { result ≡ Stands container place }
{
    Slot::Stands { container, place }
}
