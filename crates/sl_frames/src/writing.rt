//! Variables and elements that are written.
ghost use Rattle.std.specs.Prelude.{◌≡◌, ◌<◌, ℕ, List};
ghost use Rattle.sl_base.specs.declared.scalar.Scalar.TheVariants.{Int};
ghost use Rattle.sl_model.specs.LibraryCalls.Values.{Value as ValueData};
ghost use Rattle.sl_model.specs.Memory.Containers.{Memory, Part as PartData, write_element};
ghost use Rattle.sl_model.specs.Numbers.{converted};
ghost use Rattle.sl_model.specs.Runs.Eval.{write_at};
ghost use Rattle.sl_model.specs.Runs.State.{Pointer as PointerData, State, set_iterator_at, set_scalar_at};
ghost use Rattle.sl_slots.specs.Shown.{Holds, part_code, slot_of, value_of};
ghost use Rattle.sl_slots.specs.declared.slot.Pointer.TheVariants as p;
ghost use Rattle.sl_frames.specs.Followed.{Follows};
ghost use Rattle.sl_frames.specs.Changed.{ElementWrote, NumberSet, PointerSet, Wrote};

use crate::conversion::to_int;
use crate::variables::Variables;
use sl_slots::{Part, Pointer, Slot, Store, Value};

impl Variables {
    /// The scalar at a location takes a number; where none is there, nothing happens.
    pub fn set_number(&mut self, location: usize, number: i128)
        ensures set { NumberSet location number self.old self.new }
        ensures shows { (s : State) (held : List ValueData) → Follows self.old s held →
            Follows self.new (set_scalar_at location number s) held }
    {
        if location < self.scalars.len() {
            self.scalars[location].value = Some(number);
        }
    }

    /// The iterator at a location takes a slot, that of a stamp that was used; where none is there, nothing happens.
    pub fn set_iterator(&mut self, location: usize, slot: Slot)
        ensures set { PointerSet location (p.Iterator slot) self.old self.new }
        ensures shows { (s : State) (held : List ValueData) (stamp : ℕ) → stamp < s.memory.fresh →
            slot_of s.memory stamp ≡ slot → Follows self.old s held →
            Follows self.new (set_iterator_at location stamp s) held }
    {
        if location < self.store.pointers.len() {
            self.store.pointers[location] = Pointer::Iterator(slot);
        }
    }

    /// Writes a number at a place, a scalar or an element, where it is there; any other value is no place, and nothing
    /// happens. What comes into an element is converted to `int`, and a key that orders or finds its element is left as
    /// it is.
    pub fn write(&mut self, place: Value, number: i128)
        ensures wrote { Wrote place number self.old self.new }
        ensures shows { (s : State) (held : List ValueData) (v : ValueData) → value_of s.memory v ≡ place →
            Follows self.old s held → Follows self.new (write_at v number s) held }
    {
        match place {
            Value::ScalarAt(location) => self.set_number(location, number),
            Value::ElementAt {
                container,
                place,
                part,
            } => write_number(&mut self.store, container, place, part, number),
            _ => (),
        }
    }
}

// Writes a number in the element at a place of a container, where it is there.
fn write_number(store: &mut Store, container: usize, place: usize, part: Part, number: i128)
    ensures wrote { ElementWrote container place part number store.old store.new }
    ensures shows { (m : Memory) (ps : List PointerData) (vs : List ValueData) (which : PartData) →
        part_code which ≡ part → Holds store.old m ps vs →
        Holds store.new (write_element m container place which number) ps vs }
{
    if container >= store.containers.len() {
        return;
    }
    if place >= store.size(container) {
        return;
    }
    store.write(container, place, part, to_int(number));
}
