//! Two containers that exchange elements.
ghost use Rattle.std.specs.Prelude.{◌≡◌, ◌≢◌, ◌<◌, List, IfOk, OnOk, length, map, slice_set};
ghost use Rattle.sl_model.specs.Memory.Containers.{Memory, cont_at};
ghost use Rattle.sl_model.specs.Memory.Edits.{Change, after_two};
ghost use Rattle.sl_model.specs.Runs.State.{Pointer as PointerData};
ghost use Rattle.sl_model.specs.LibraryCalls.Values.{Value as ValueData};
ghost use Rattle.sl_model.proofs.Places.{CountsFairSide};
ghost use Rattle.sl_slots.specs.Shown.{Holds, contents};
ghost use Rattle.sl_slots.specs.Stored.{Traded, contents_at, elements_at};
ghost use Rattle.sl_slots.specs.Rearranging.{element_from};
ghost use Rattle.sl_slots.specs.Trading.{IsSide};

use crate::container::Element;
use crate::motion::Motion;
use crate::moving::move_all;
use crate::rearranging::{put_together, refill};
use crate::store::Store;
use crate::trade::{Side, Trade};
use std::alloc::{AllocError, Global};

impl Store {
    /// Two containers exchange elements, which take their iterators and references with them. In the memory it is each
    /// fair pair of changes that have the same sources and rooms and invalidate no element. After AllocError nothing is
    /// said.
    pub fn trade(&mut self, alloc: Global, by: Trade) -> Result<(), AllocError>
        requires first { by.first.container < length self.old.containers.items }
        requires second { by.second.container < length self.old.containers.items }
        requires differ { by.first.container ≢ by.second.container }
        requires first_size { by.first.size ≡ length (elements_at self.old by.first.container) }
        requires second_size { by.second.size ≡ length (elements_at self.old by.second.container) }
        ensures traded { OnOk result (Traded by self.old self.new) }
        ensures shows { OnOk result ((m : Memory) (ps : List PointerData) (vs : List ValueData) (ch dh : Change) →
            IsSide by.first by.ends (cont_at m by.first.container) ch →
            IsSide by.second by.ends (cont_at m by.second.container) dh →
            CountsFairSide (cont_at m by.first.container) (cont_at m by.second.container) ch dh →
            CountsFairSide (cont_at m by.second.container) (cont_at m by.first.container) dh ch →
            Holds self.old m ps vs →
            Holds self.new (after_two ch dh m by.first.container (cont_at m by.first.container)
            by.second.container (cont_at m by.second.container) by.site) ps vs) }
    {
        let own = side_elements(self, alloc, &by.first, &by.second)?;
        let other = side_elements(self, alloc, &by.second, &by.first)?;
        fill(self, &by.first, own);
        fill(self, &by.second, other);
        move_all(&Motion::Trades(by), self);
        Ok(())
    }
}

// The elements of one of two containers after they exchanged elements.
fn side_elements(
    store: &Store,
    alloc: Global,
    own: &Side,
    other: &Side,
) -> Result<Vec<Element>, AllocError>
    requires own { own.now.container < length store.now.containers.items }
    requires other { other.now.container < length store.now.containers.items }
    ensures { IfOk result (λ made. made.items ≡ map (element_from (elements_at store.now own.now.container)
        (elements_at store.now other.now.container)) own.now.sources.items) }
{
    put_together(
        alloc,
        &store.containers[own.container].elements,
        &store.containers[other.container].elements,
        &own.sources,
    )
}

// One of two containers gets these elements and its room.
fn fill(store: &mut Store, side: &Side, elements: Vec<Element>)
    requires { side.now.container < length store.old.containers.items }
    ensures containers { map contents store.new.containers.items
        ≡ slice_set (map contents store.old.containers.items) side.now.container (record {
          form = (contents_at store.old side.now.container).form;
          elements = elements.items;
          room = side.now.room;
        }) }
    ensures many { length store.new.containers.items ≡ length store.old.containers.items }
    ensures pointers { store.new.pointers ≡ store.old.pointers }
    ensures operands { store.new.operands ≡ store.old.operands }
{
    refill(&mut store.containers[side.container], elements, side.room);
}
