//! Containers that calls make.
ghost use Rattle.std.specs.Prelude.{◌≡◌, ◌<◌, ◌+◌, ◌^◌, ℤ, true, List, length, map, OnOk, OnErr};
ghost use Rattle.sl_specs.specs.declared.class.Class.{Class as ClassData};
ghost use Rattle.sl_model.specs.Runs.State.{Pointer};
ghost use Rattle.sl_model.specs.LibraryCalls.Values.{Value};
ghost use Rattle.sl_model.specs.LibraryCalls.Situation.{Situation};
ghost use Rattle.sl_model.specs.LibraryCalls.Actions.{makes, makes_by_keys};
ghost use Rattle.sl_model.specs.LibraryCalls.Effects.{does};
ghost use Rattle.sl_model.proofs.FineEffects.{IsFine};
ghost use Rattle.sl_slots.specs.Shown.{new_element};
ghost use Rattle.sl_slots.specs.Stored.{Stays};
ghost use Rattle.sl_effects.specs.Carried.{AreKeyed, Carries, GrewBy, Meets, is_key_class};

use crate::inserting::insert_all;
use crate::picks::Picks;
use sl_base::Form;
use sl_slots::{Element, Store};
use sl_specs::Class;
use std::alloc::{AllocError, Global};

/// Makes a container, as the last, with these elements; the call took so many picks. After AllocError the store is
/// as it was.
pub fn make(
    store: &mut Store,
    picks: &mut Picks,
    taken: usize,
    form: Form,
    room: usize,
    elements: Vec<Element>,
) -> Result<(), AllocError>
    ensures grew { OnOk result (GrewBy 1 store.old store.new) }
    ensures shows { OnOk result ((class : ClassData) (s : Situation) (ps : List Pointer) (vs : List Value)
        (xs : List (ℤ × ℤ)) →
        map new_element xs ≡ elements.items → IsFine class s (makes taken room xs) →
        Meets store.old picks.old s.object s.site s ps vs →
        Carries store.new picks.new (does form class s (makes taken room xs)) ps vs) }
    ensures kept { OnErr result (Stays store.old store.new) }
{
    picks.skip(taken);
    store.make(form, room, elements)?;
    Ok(())
}

/// Makes a container, as the last, into which these elements are put one by one, at a site; the call took so many
/// picks before. After AllocError nothing is said.
pub fn make_by_keys(
    store: &mut Store,
    alloc: Global,
    picks: &mut Picks,
    taken: usize,
    class: Class,
    form: Form,
    room: usize,
    elements: &[Element],
    site: usize,
) -> Result<(), AllocError>
    requires { length elements.now < 2 ^ 63 }
    ensures grew { OnOk result (GrewBy 1 store.old store.new) }
    ensures shows { OnOk result ((s : Situation) (ps : List Pointer) (vs : List Value) (xs : List (ℤ × ℤ)) →
        is_key_class class ≡ true → AreKeyed xs elements.now → IsFine class s (makes_by_keys taken room xs) →
        Meets store.old picks.old s.object site s ps vs →
        Carries store.new picks.new (does form class s (makes_by_keys taken room xs)) ps vs) }
{
    let container = store.containers.len();
    picks.skip(taken);
    store.make(form, room, Vec::new(alloc))?;
    insert_all(store, alloc, picks, class, container, elements, site)?;
    Ok(())
}
