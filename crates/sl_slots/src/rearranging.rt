//! Containers that are put together anew.
ghost use Rattle.std.specs.Prelude.{◌≡◌, ◌<◌, List, IfOk, OnOk, length, map};
ghost use Rattle.sl_model.specs.Memory.Containers.{Memory, cont_at};
ghost use Rattle.sl_model.specs.Memory.Edits.{Change, after};
ghost use Rattle.sl_model.specs.Runs.State.{Pointer as PointerData};
ghost use Rattle.sl_model.specs.LibraryCalls.Values.{Value as ValueData};
ghost use Rattle.sl_model.proofs.Places.{CountsFair};
ghost use Rattle.sl_slots.specs.Shown.{Holds, contents};
ghost use Rattle.sl_slots.specs.Rearranging.{IsRearranged, element_from, element_there};
ghost use Rattle.sl_slots.specs.Stored.{Rearranged, elements_at};

use crate::container::{Container, Element};
use crate::motion::Motion;
use crate::moving::move_all;
use crate::rearrangement::Rearrangement;
use crate::source::Source;
use crate::store::Store;
use std::alloc::{AllocError, Global};

impl Store {
    /// Puts a container together anew. In the memory it is each fair change of the container that has the same sources
    /// and room and invalidates the same. After AllocError nothing is said.
    pub fn rearrange(&mut self, alloc: Global, by: Rearrangement) -> Result<(), AllocError>
        requires there { by.container < length self.old.containers.items }
        requires size { by.size ≡ length (elements_at self.old by.container) }
        ensures rearranged { OnOk result (Rearranged by self.old self.new) }
        ensures shows { OnOk result ((m : Memory) (ps : List PointerData) (vs : List ValueData) (ch : Change) →
            IsRearranged by (cont_at m by.container) ch → CountsFair (cont_at m by.container) ch →
            Holds self.old m ps vs →
            Holds self.new (after ch m by.container (cont_at m by.container) by.site) ps vs) }
    {
        let at = by.container;
        let room = by.room;
        let elements = put_together(
            alloc,
            &self.containers[at].elements,
            &self.containers[at].elements,
            &by.sources,
        )?;
        refill(&mut self.containers[at], elements, room);
        move_all(&Motion::Rearranges(by), self);
        Ok(())
    }
}

/// A container gets these elements and a room.
pub fn refill(container: &mut Container, elements: Vec<Element>, room: usize)
    ensures { contents container.new ≡ record { form = container.old.form; elements = elements.items; room = room } }
{
    container.elements = elements;
    container.room = room;
}

/// The elements that sources give, from those of the container itself and of the other one.
pub fn put_together(
    alloc: Global,
    own: &[Element],
    other: &[Element],
    sources: &[Source],
) -> Result<Vec<Element>, AllocError>
    ensures { IfOk result (λ made. made.items ≡ map (element_from own.now other.now) sources.now) }
{
    let mut made = Vec::new(alloc);
    for source in sources {
        made.push(given(own, other, *source))?;
    }
    Ok(made)
}

// The element that a source gives.
fn given(own: &[Element], other: &[Element], source: Source) -> Element
    ensures { result ≡ element_from own.now other.now source }
{
    match source {
        Source::Old(from) => at(own, from),
        Source::Written(from, key) => Element {
            key,
            ..at(own, from)
        },
        Source::Theirs(from) => at(other, from),
        Source::New(element) => element,
    }
}

// The element at a place, and zeros where there is none.
fn at(elements: &[Element], place: usize) -> Element
    ensures { result ≡ element_there elements.now place }
{
    if place < elements.len() {
        elements[place]
    } else {
        Element { key: 0, value: 0 }
    }
}
