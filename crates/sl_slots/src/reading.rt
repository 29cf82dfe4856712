//! What is read of containers.
ghost use Rattle.std.specs.Prelude.{◌≡◌, ◌<◌, List, length, slice_get, Some};
ghost use Rattle.sl_model.specs.Memory.Containers.{Memory, Part as PartData, cont_at, element, size};
ghost use Rattle.sl_model.specs.Runs.State.{Pointer as PointerData};
ghost use Rattle.sl_model.specs.LibraryCalls.Values.{Value as ValueData};
ghost use Rattle.sl_slots.specs.Shown.{Holds, part_code};
ghost use Rattle.sl_slots.specs.Stored.{contents_at, elements_at, number_of};

use crate::container::Element;
use crate::slot::Part;
use crate::store::Store;
use sl_base::Form;

impl Store {
    /// How many elements a container has.
    pub fn size(&self, container: usize) -> usize
        requires { container < length self.now.containers.items }
        ensures value { result ≡ length (elements_at self.now container) }
        ensures shows { (m : Memory) (ps : List PointerData) (vs : List ValueData) → Holds self.now m ps vs →
            result ≡ size (cont_at m container) }
    {
        self.containers[container].elements.len()
    }

    /// The element at a place of a container.
    pub fn get(&self, container: usize, place: usize) -> Element
        requires there { container < length self.now.containers.items }
        requires inside { place < length (elements_at self.now container) }
        ensures value { slice_get (elements_at self.now container) place ≡ Some result }
        ensures shows { (m : Memory) (ps : List PointerData) (vs : List ValueData) (part : PartData) →
            Holds self.now m ps vs → number_of (part_code part) result ≡ element m container place part }
    {
        self.containers[container].elements[place]
    }

    /// The form of a container.
    pub fn form(&self, container: usize) -> Form
        requires { container < length self.now.containers.items }
        ensures value { result ≡ (contents_at self.now container).form }
        ensures shows { (m : Memory) (ps : List PointerData) (vs : List ValueData) → Holds self.now m ps vs →
            result ≡ (cont_at m container).form }
    {
        self.containers[container].form
    }

    /// The room of a container.
    pub fn room(&self, container: usize) -> usize
        requires { container < length self.now.containers.items }
        ensures value { result ≡ (contents_at self.now container).room }
        ensures shows { (m : Memory) (ps : List PointerData) (vs : List ValueData) → Holds self.now m ps vs →
            result ≡ (cont_at m container).room }
    {
        self.containers[container].room
    }
}

impl Element {
    /// A number of the element.
    pub fn number(self, part: Part) -> i32
        ensures { result ≡ number_of part self }
    {
        match part {
            Part::Key => self.key,
            Part::Value => self.value,
        }
    }
}
