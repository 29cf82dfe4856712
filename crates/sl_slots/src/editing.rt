//! Edits of containers.
ghost use Rattle.std.specs.Prelude.{◌≡◌, ◌+◌, ◌≤◌, ◌<◌, ◌^◌, List, length, OnOk};
ghost use Rattle.sl_model.specs.Memory.Classes.{Edit as EditData};
ghost use Rattle.sl_model.specs.Memory.Containers.{Memory, cont_at};
ghost use Rattle.sl_model.specs.Memory.Edits.{after, change_of};
ghost use Rattle.sl_model.specs.Runs.State.{Pointer as PointerData};
ghost use Rattle.sl_model.specs.LibraryCalls.Values.{Value as ValueData};
ghost use Rattle.sl_model.proofs.Places.{CountsFair};
ghost use Rattle.sl_slots.specs.Shown.{Holds, contents};
ghost use Rattle.sl_slots.specs.Stored.{Edited, IsEdit, edited, editing_of, elements_at};

use crate::container::{Container, Element};
use crate::edit::{Edit, Editing};
use crate::motion::Motion;
use crate::moving::move_all;
use crate::store::Store;
use std::alloc::AllocError;

impl Store {
    /// Carries out an edit of a container, by which these elements come. In the memory it is the edit of the model that
    /// has the same numbers, where this is fair: each element that goes is invalidated. After AllocError nothing is said.
    pub fn edit(
        &mut self,
        container: usize,
        edit: &Edit,
        come: &[Element],
        site: usize,
    ) -> Result<(), AllocError>
        requires there { container < length self.old.containers.items }
        requires inside { edit.now.from + edit.now.gone ≤ length (elements_at self.old container) }
        requires few { length (elements_at self.old container) + length come.now < 2 ^ 63 }
        ensures edited { OnOk result (Edited container edit.now come.now site self.old self.new) }
        ensures shows { OnOk result ((m : Memory) (ps : List PointerData) (vs : List ValueData) (e : EditData) →
            IsEdit e edit.now come.now → CountsFair (cont_at m container) (change_of edit.now.class (cont_at m container) e) →
            Holds self.old m ps vs →
            Holds self.new (after (change_of edit.now.class (cont_at m container) e) m container (cont_at m container) site) ps vs) }
    {
        let editing = editing(self, container, edit, come, site);
        replace(&mut self.containers[container], edit, come)?;
        move_all(&Motion::Edits(editing), self);
        Ok(())
    }
}

// An edit of a container of a store.
fn editing(store: &Store, container: usize, edit: &Edit, come: &[Element], site: usize) -> Editing
    requires { container < length store.now.containers.items }
    ensures { result ≡ editing_of container edit.now come.now site store.now }
{
    Editing {
        edit: *edit,
        container,
        size: store.size(container),
        room: store.room(container),
        come: come.len(),
        site,
    }
}

// Elements of a container go and others come. After AllocError nothing is said.
fn replace(container: &mut Container, edit: &Edit, come: &[Element]) -> Result<(), AllocError>
    requires { edit.now.from + edit.now.gone ≤ length container.old.elements.items }
    ensures { OnOk result (contents container.new ≡ edited edit.now come.now (contents container.old)) }
{
    container.room = edit.room;
    let elements = &mut container.elements;
    drop(elements.drain(edit.from..edit.from + edit.gone));
    elements.extend_from_slice(come)?;
    elements[edit.from..].rotate_right(come.len());
    Ok(())
}
