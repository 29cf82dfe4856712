//! One new key that comes into a container, with the picks that are to be taken for it.
ghost use Rattle.std.specs.Prelude.{◌≡◌, ◌≤◌, ◌<◌, ◌+◌, ◌^◌, ℤ, true, false, List, length, OnOk};
ghost use Rattle.sl_base.specs.declared.limits.TheConstants.{ELEMENTS};
ghost use Rattle.sl_model.specs.Memory.Containers.{cont_at, size};
ghost use Rattle.sl_model.specs.Memory.Edits.{after};
ghost use Rattle.sl_model.specs.Runs.State.{Pointer};
ghost use Rattle.sl_model.specs.LibraryCalls.Values.{Value};
ghost use Rattle.sl_model.specs.LibraryCalls.Effects.{Left, key_change};
ghost use Rattle.sl_slots.specs.Shown.{Holds, new_element};
ghost use Rattle.sl_slots.specs.Stored.{elements_at};
ghost use Rattle.sl_effects.specs.Carried.{Carries, GrewBy, is_key_class};
ghost use Rattle.sl_effects.specs.Means.Keys.{scatters};

use crate::new_keys::{is_rebuilt, key_place, key_room};
use crate::picks::Picks;
use crate::rebuilding::rebuild_with;
use sl_slots::{Edit, Element, Store};
use sl_specs::Class;
use std::alloc::{AllocError, Global};

/// A new key comes into a container. No pick is taken yet.
pub fn add(
    store: &mut Store,
    alloc: Global,
    picks: &Picks,
    class: Class,
    container: usize,
    element: Element,
    site: usize,
) -> Result<(), AllocError>
    requires there { container < length store.old.containers.items }
    requires few { length (elements_at store.old container) + 1 < 2 ^ 63 }
    ensures grew { OnOk result (GrewBy 0 store.old store.new) }
    ensures size { OnOk result
        (length (elements_at store.new container) ≡ length (elements_at store.old container) + 1) }
    ensures shows { OnOk result ((left : Left) (ps : List Pointer) (vs : List Value) (x : ℤ × ℤ) →
        is_key_class class ≡ true → new_element x ≡ element → x.0 ≡ element.key →
        size (cont_at left.memory container) + 1 ≤ ELEMENTS →
        Carries store.old picks.now left ps vs →
        Holds store.new (after (key_change class (cont_at left.memory container) x left.picks)
        left.memory container (cont_at left.memory container) site) ps vs) }
{
    if is_rebuilt(store, container) {
        rebuild_with(store, alloc, picks, class, container, element, site)?;
        return Ok(());
    }
    add_between(store, picks, class, container, element, site)?;
    Ok(())
}

// A new key comes between elements that stay in their order.
fn add_between(
    store: &mut Store,
    picks: &Picks,
    class: Class,
    container: usize,
    element: Element,
    site: usize,
) -> Result<(), AllocError>
    requires there { container < length store.old.containers.items }
    requires few { length (elements_at store.old container) + 1 < 2 ^ 63 }
    ensures grew { OnOk result (GrewBy 0 store.old store.new) }
    ensures size { OnOk result
        (length (elements_at store.new container) ≡ length (elements_at store.old container) + 1) }
    ensures shows { OnOk result ((left : Left) (ps : List Pointer) (vs : List Value) (x : ℤ × ℤ) →
        scatters (cont_at left.memory container) ≡ false →
        new_element x ≡ element → x.0 ≡ element.key → size (cont_at left.memory container) + 1 ≤ ELEMENTS →
        Carries store.old picks.now left ps vs →
        Holds store.new (after (key_change class (cont_at left.memory container) x left.picks)
        left.memory container (cont_at left.memory container) site) ps vs) }
{
    let edit = Edit {
        class,
        from: key_place(store, container, element.key, picks),
        gone: 0,
        room: key_room(store, container, picks),
    };
    store.edit(container, &edit, &[element], site)?;
    Ok(())
}
