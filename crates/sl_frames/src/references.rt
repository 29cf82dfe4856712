//! References to elements.
ghost use Rattle.std.specs.Prelude.{◌≡◌, ℕ, List, IfOk, None, slice_index_or};
ghost use Rattle.sl_base.specs.declared.place.Place.{Place as PlaceData};
ghost use Rattle.sl_model.specs.LibraryCalls.Values.{Value as ValueData, element_at};
ghost use Rattle.sl_model.specs.Memory.Containers.{Part as PartData};
ghost use Rattle.sl_model.specs.Runs.Eval.{used};
ghost use Rattle.sl_model.specs.Runs.Exec.{binds_to};
ghost use Rattle.sl_model.specs.Runs.State.{State, pointer_at};
ghost use Rattle.sl_slots.specs.declared.slot.Pointer.TheVariants as p;
ghost use Rattle.sl_slots.specs.declared.slot.Slot.TheVariants.{Gone};
ghost use Rattle.sl_slots.specs.declared.slot.Value.TheVariants as v;
ghost use Rattle.sl_slots.specs.Shown.{part_code, value_of};
ghost use Rattle.sl_frames.specs.Followed.{Follows, FitsBinding};
ghost use Rattle.sl_frames.specs.Changed.{ReferenceCame, part_taken, use_at, use_gives, use_of};

use crate::variables::Variables;
use sl_slots::{Part, Pointer, Slot, Value};
use sl_syntax::typed::ElementPart;
use std::alloc::AllocError;

/// What a use of a reference means.
#[derive(Clone, Copy)]
pub enum ReferenceUse {
    /// A number of the element to which it is bound.
    Element {
        container: usize,
        place: usize,
        part: Part,
    },
    /// The element is gone; this site invalidated the reference.
    Invalid {
        site: Option<usize>,
    },
    /// There is no reference.
    NoReference,
}

impl Variables {
    /// What a use of the reference at a location means.
    pub fn use_reference(&self, location: usize, part: ElementPart) -> ReferenceUse
        ensures value { result
            ≡ use_of part (slice_index_or self.now.store.pointers.items location (p.Iterator (Gone None))) }
        ensures shows { (s : State) (held : List ValueData) (at : PlaceData) (name : ℕ) → Follows self.now s held →
            used at name part (pointer_at s location) s ≡ use_gives at name result s }
    {
        pointer_use(self.pointer(location), part)
    }

    /// A new reference to the element at a place comes into scope, where there is one; if not, nothing happens, and the
    /// answer is false. After AllocError nothing is said.
    pub fn bind_reference(&mut self, place: Value) -> Result<bool, AllocError>
        ensures came { IfOk result (λ bound. ReferenceCame bound place self.old self.new) }
        ensures shows { IfOk result (λ bound. (s : State) (held : List ValueData) (v : ValueData) (at : PlaceData) →
            value_of s.memory v ≡ place → Follows self.old s held →
            FitsBinding bound self.new held at s (binds_to at v s)) }
    {
        match place {
            Value::ElementAt {
                container,
                place,
                part,
            } => self.bind_element(container, place, part),
            _ => Ok(false),
        }
    }
}

impl Variables {
    // A new reference to the element at a place comes into scope, where there is one.
    fn bind_element(
        &mut self,
        container: usize,
        place: usize,
        part: Part,
    ) -> Result<bool, AllocError>
        ensures came { IfOk result (λ bound. ReferenceCame bound (v.ElementAt container place part) self.old self.new) }
        ensures shows { IfOk result (λ bound. (s : State) (held : List ValueData) (which : PartData) (at : PlaceData) →
            part_code which ≡ part → Follows self.old s held →
            FitsBinding bound self.new held at s (binds_to at (element_at container place which) s)) }
    {
        if container >= self.store.containers.len() {
            return Ok(false);
        }
        if place >= self.store.size(container) {
            return Ok(false);
        }
        self.declare_pointer(Pointer::Reference(Slot::Stands { container, place }, part))?;
        Ok(true)
    }
}

// What a use of a reference means, by what it holds.
fn pointer_use(pointer: Pointer, part: ElementPart) -> ReferenceUse
    ensures { result ≡ use_of part pointer }
{
    match pointer {
        Pointer::Iterator(_) => ReferenceUse::NoReference,
        Pointer::Reference(slot, bound) => slot_use(slot, taken_part(part, bound)),
    }
}

// What a use of a reference means, by where it stands.
fn slot_use(slot: Slot, part: Part) -> ReferenceUse
    ensures { result ≡ use_at part slot }
{
    match slot {
        Slot::Stands { container, place } => ReferenceUse::Element {
            container,
            place,
            part,
        },
        Slot::Gone { site } => ReferenceUse::Invalid { site },
    }
}

// Which number of an element a use means.
fn taken_part(part: ElementPart, bound: Part) -> Part
    ensures { result ≡ part_taken part bound }
{
    match part {
        ElementPart::Whole => bound,
        ElementPart::First => Part::Key,
        ElementPart::Second => Part::Value,
    }
}
