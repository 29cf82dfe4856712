//! The store: containers, and what iterators, references and operands hold.
ghost use Rattle.std.specs.Prelude.{◌≡◌, ◌≤◌, ℕ, ℤ, [], List, map, length, OnOk, OnErr};
ghost use Rattle.sl_base.specs.declared.limits.TheConstants.{ELEMENTS};
ghost use Rattle.sl_model.specs.Memory.Containers.{Memory, empty_memory, made};
ghost use Rattle.sl_model.specs.Runs.State.{Pointer as PointerData};
ghost use Rattle.sl_model.specs.LibraryCalls.Values.{Value as ValueData};
ghost use Rattle.sl_slots.specs.Shown.{Holds, new_element};
ghost use Rattle.sl_slots.specs.Stored.{Made, Stays};

use crate::container::{Container, Element};
use crate::slot::{Pointer, Value};
use sl_base::Form;
use std::alloc::{AllocError, Global};

/// The containers of all calls in progress by their numbers, what their iterator variables and references hold, and
/// the operands that were evaluated and not used yet.
#[derive(Drop)]
pub struct Store {
    pub containers: Vec<Container>,
    pub pointers: Vec<Pointer>,
    pub operands: Vec<Value>,
}

impl Store {
    /// A store without anything, which shows the memory in which a run begins. It takes no memory.
    pub fn new(alloc: Global) -> Store
        ensures containers { result.containers.items ≡ [] }
        ensures pointers { result.pointers.items ≡ [] }
        ensures operands { result.operands.items ≡ [] }
        ensures shows { Holds result empty_memory [] [] }
    {
        Store {
            containers: Vec::new(alloc),
            pointers: Vec::new(alloc),
            operands: Vec::new(alloc),
        }
    }

    /// Makes a container, as the last, with these elements. Nothing moves. After AllocError the store is as it was.
    pub fn make(
        &mut self,
        form: Form,
        room: usize,
        elements: Vec<Element>,
    ) -> Result<(), AllocError>
        ensures made { OnOk result (Made form room elements.items self.old self.new) }
        ensures shows { OnOk result ((m : Memory) (ps : List PointerData) (vs : List ValueData) (xs : List (ℤ × ℤ)) →
            map new_element xs ≡ elements.items → length xs ≤ ELEMENTS → Holds self.old m ps vs →
            Holds self.new (made form room xs m) ps vs) }
        ensures kept { OnErr result (Stays self.old self.new) }
    {
        self.containers.push(Container {
            form,
            elements,
            room,
        })?;
        Ok(())
    }
}
