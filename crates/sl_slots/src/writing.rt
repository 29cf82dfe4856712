//! Numbers that are written in elements.
ghost use Rattle.std.specs.Prelude.{◌≡◌, ◌<◌, ℤ, List, length, slice_get, Some};
ghost use Rattle.sl_base.specs.declared.scalar.Scalar.TheVariants.{Int};
ghost use Rattle.sl_specs.specs.Forms.{is_keyed};
ghost use Rattle.sl_model.specs.Numbers.{converted};
ghost use Rattle.sl_model.specs.Memory.Containers.{Memory, Part as PartData, write_element};
ghost use Rattle.sl_model.specs.Runs.State.{Pointer as PointerData};
ghost use Rattle.sl_model.specs.LibraryCalls.Values.{Value as ValueData};
ghost use Rattle.sl_slots.specs.declared.container.Element.{Element as ElementData};
ghost use Rattle.sl_slots.specs.Shown.{Holds, part_code};
ghost use Rattle.sl_slots.specs.Stored.{Written, elements_at, is_open, with_number, written};

use crate::container::Element;
use crate::slot::Part;
use crate::store::Store;
use sl_base::Form;

impl Store {
    /// Writes a number in the element at a place of a container. A key that orders or finds its element is left as it is.
    pub fn write(&mut self, container: usize, place: usize, part: Part, number: i32)
        requires there { container < length self.old.containers.items }
        requires inside { place < length (elements_at self.old container) }
        ensures written { (x : ElementData) → slice_get (elements_at self.old container) place ≡ Some x →
            Written container place x part number self.old self.new }
        ensures shows { (m : Memory) (ps : List PointerData) (vs : List ValueData) (which : PartData) (z : ℤ) →
            part_code which ≡ part → converted Int z ≡ number → Holds self.old m ps vs →
            Holds self.new (write_element m container place which z) ps vs }
    {
        let element = after_writing(
            self.form(container),
            self.get(container, place),
            part,
            number,
        );
        self.containers[container].elements[place] = element;
    }
}

// An element of a container of a form after a number is written in it.
fn after_writing(form: Form, element: Element, part: Part, number: i32) -> Element
    ensures { result ≡ written form part number element }
{
    if is_writable(form, part) {
        element.with(part, number)
    } else {
        element
    }
}

// Whether a container of a form lets a number of its elements be written.
fn is_writable(form: Form, part: Part) -> bool
    ensures { result ≡ is_open form part }
{
    match part {
        Part::Key => !has_keys(form),
        Part::Value => true,
    }
}

// Whether the elements of a form are ordered or found by their keys.
fn has_keys(form: Form) -> bool
    ensures { result ≡ is_keyed form }
{
    match form {
        Form::Vector => false,
        Form::Deque => false,
        Form::List => false,
        _ => true,
    }
}

impl Element {
    // The element with a number written.
    fn with(self, part: Part, number: i32) -> Element
        ensures { result ≡ with_number part number self }
    {
        match part {
            Part::Key => Element {
                key: number,
                ..self
            },
            Part::Value => Element {
                value: number,
                ..self
            },
        }
    }
}
