//! Where variables are, and what is there.
ghost use Rattle.std.specs.Prelude.{◌≡◌, ◌<◌, List, length, slice_index, slice_index_or, None};
ghost use Rattle.sl_model.specs.LibraryCalls.Values.{Value as ValueData};
ghost use Rattle.sl_model.specs.Runs.State.{State, cont_of, iter_of, pointer_at, scalar_of, scalar_value};
ghost use Rattle.sl_slots.specs.declared.slot.Pointer.TheVariants as p;
ghost use Rattle.sl_slots.specs.declared.slot.Slot.TheVariants.{Gone};
ghost use Rattle.sl_slots.specs.Shown.{pointer_of};
ghost use Rattle.sl_frames.specs.Followed.{Follows};
ghost use Rattle.sl_frames.specs.Changed.{number_at};

use crate::frame::location;
use crate::variables::Variables;
use sl_slots::{Pointer, Slot};

impl Variables {
    /// The location of a scalar by its number, 0 where it isn't in scope.
    pub fn scalar_location(&self, number: usize) -> usize
        ensures value { result ≡ slice_index self.now.frame.scalars.items number }
        ensures shows { (s : State) (held : List ValueData) → Follows self.now s held → result ≡ scalar_of s number }
    {
        location(&self.frame.scalars, number)
    }

    /// The location of a container by its number, 0 where it isn't in scope.
    pub fn container_location(&self, number: usize) -> usize
        ensures value { result ≡ slice_index self.now.frame.containers.items number }
        ensures shows { (s : State) (held : List ValueData) → Follows self.now s held → result ≡ cont_of s number }
    {
        location(&self.frame.containers, number)
    }

    /// The location of an iterator or reference by its number, 0 where it isn't in scope.
    pub fn pointer_location(&self, number: usize) -> usize
        ensures value { result ≡ slice_index self.now.frame.pointers.items number }
        ensures shows { (s : State) (held : List ValueData) → Follows self.now s held → result ≡ iter_of s number }
    {
        location(&self.frame.pointers, number)
    }

    /// The number of the scalar at a location, where it is there and set.
    pub fn number(&self, location: usize) -> Option<i128>
        ensures value { result ≡ number_at self.now location }
        ensures shows { (s : State) (held : List ValueData) → Follows self.now s held →
            result ≡ scalar_value s location }
    {
        if location < self.scalars.len() {
            self.scalars[location].value
        } else {
            None
        }
    }

    /// What the iterator or reference at a location holds. Where none is there, it is an iterator that stands nowhere.
    pub fn pointer(&self, location: usize) -> Pointer
        ensures value { result ≡ slice_index_or self.now.store.pointers.items location (p.Iterator (Gone None)) }
        ensures shows { (s : State) (held : List ValueData) → Follows self.now s held → location < length s.iters →
            result ≡ pointer_of s.memory (pointer_at s location) }
    {
        if location < self.store.pointers.len() {
            self.store.pointers[location]
        } else {
            Pointer::Iterator(Slot::Gone { site: None })
        }
    }
}
