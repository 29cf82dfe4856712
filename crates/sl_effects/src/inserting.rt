//! Keys that come one by one into sets, maps and hash forms.
ghost use Rattle.std.specs.Prelude.{◌≡◌, ◌≤◌, ◌<◌, ◌+◌, ◌^◌, ℤ, true, List, ◌∷◌, length, OnOk};
ghost use Rattle.sl_base.specs.declared.limits.TheConstants.{ELEMENTS};
ghost use Rattle.sl_base.specs.declared.form.Form.{Form as FormData};
ghost use Rattle.sl_model.specs.Memory.Containers.{cont_at, size};
ghost use Rattle.sl_model.specs.Runs.State.{Pointer};
ghost use Rattle.sl_model.specs.LibraryCalls.Values.{Value};
ghost use Rattle.sl_model.specs.LibraryCalls.Situation.{Situation};
ghost use Rattle.sl_model.specs.LibraryCalls.Actions.{inserts};
ghost use Rattle.sl_model.specs.LibraryCalls.Effects.{Left, does, insert_key as insert_key_data};
ghost use Rattle.sl_model.specs.LibraryCalls.KeyActions.{new_keys};
ghost use Rattle.sl_model.proofs.FineEffects.{IsFine};
ghost use Rattle.sl_slots.specs.Shown.{new_element};
ghost use Rattle.sl_slots.specs.Stored.{elements_at};
ghost use Rattle.sl_effects.specs.Carried.{AreKeyed, Carries, GrewBy, Meets, is_key_class};
ghost use Rattle.sl_effects.specs.Means.Keys.{added};

use crate::adding::add;
use crate::keys::known_place;
use crate::new_keys::key_picks;
use crate::picks::Picks;
use sl_slots::{Element, Store};
use sl_specs::Class;
use std::alloc::{AllocError, Global};

/// Puts elements into a container with keys, one by one, at a site. A key that is there keeps an equal one out, but
/// where equal keys may be. Hash forms take picks. After AllocError nothing is said.
pub fn insert_all(
    store: &mut Store,
    alloc: Global,
    picks: &mut Picks,
    class: Class,
    container: usize,
    elements: &[Element],
    site: usize,
) -> Result<(), AllocError>
    requires there { container < length store.old.containers.items }
    requires few { length (elements_at store.old container) + length elements.now < 2 ^ 63 }
    ensures grew { OnOk result (GrewBy 0 store.old store.new) }
    ensures shows { OnOk result ((form : FormData) (s : Situation) (ps : List Pointer) (vs : List Value)
        (xs : List (ℤ × ℤ)) →
        is_key_class class ≡ true → AreKeyed xs elements.now → IsFine class s (inserts xs) →
        Meets store.old picks.old container site s ps vs →
        Carries store.new picks.new (does form class s (inserts xs)) ps vs) }
{
    for element in elements {
        insert_key(store, alloc, picks, class, container, *element, site)?;
    }
    Ok(())
}

// Puts an element into a container with keys, unless its key keeps it out.
fn insert_key(
    store: &mut Store,
    alloc: Global,
    picks: &mut Picks,
    class: Class,
    container: usize,
    element: Element,
    site: usize,
) -> Result<(), AllocError>
    requires there { container < length store.old.containers.items }
    requires few { length (elements_at store.old container) + 1 < 2 ^ 63 }
    ensures grew { OnOk result (GrewBy 0 store.old store.new) }
    ensures size { OnOk result
        (length (elements_at store.new container) ≤ length (elements_at store.old container) + 1) }
    ensures shows { OnOk result ((left : Left) (ps : List Pointer) (vs : List Value) (x : ℤ × ℤ) (xs : List ℤ) →
        is_key_class class ≡ true → new_element x ≡ element → x.0 ≡ element.key →
        size (cont_at left.memory container) + new_keys (cont_at left.memory container) (x.0 ∷ xs) ≤ ELEMENTS →
        Carries store.old picks.old left ps vs →
        Carries store.new picks.new
        (insert_key_data class site container (cont_at left.memory container) x left) ps vs) }
{
    if known_place(store, container, element.key).is_some() {
        return Ok(());
    }
    insert_new(store, alloc, picks, class, container, element, site)?;
    Ok(())
}

// A new key comes into a container, and its picks are taken.
fn insert_new(
    store: &mut Store,
    alloc: Global,
    picks: &mut Picks,
    class: Class,
    container: usize,
    element: Element,
    site: usize,
) -> Result<(), AllocError>
    requires there { container < length store.old.containers.items }
    requires few { length (elements_at store.old container) + 1 < 2 ^ 63 }
    ensures grew { OnOk result (GrewBy 0 store.old store.new) }
    ensures size { OnOk result
        (length (elements_at store.new container) ≡ length (elements_at store.old container) + 1) }
    ensures shows { OnOk result ((left : Left) (ps : List Pointer) (vs : List Value) (x : ℤ × ℤ) →
        is_key_class class ≡ true → new_element x ≡ element → x.0 ≡ element.key →
        size (cont_at left.memory container) + 1 ≤ ELEMENTS →
        Carries store.old picks.old left ps vs →
        Carries store.new picks.new (added class site container (cont_at left.memory container) x left) ps vs) }
{
    let count = key_picks(store, container);
    add(store, alloc, picks, class, container, element, site)?;
    picks.skip(count);
    Ok(())
}
