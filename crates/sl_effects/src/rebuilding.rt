//! Hash forms that grow, and have all elements put in again.
ghost use Rattle.std.specs.Prelude.{◌≡◌, ◌≤◌, ◌<◌, ◌+◌, ◌^◌, ℕ, ℤ, true, List, length, map, IfOk, OnOk};
ghost use Rattle.std.specs.List.{insert};
ghost use Rattle.sl_base.specs.declared.limits.TheConstants.{ELEMENTS};
ghost use Rattle.sl_model.specs.Memory.Containers.{cont_at, size};
ghost use Rattle.sl_model.specs.Memory.Edits.{after};
ghost use Rattle.sl_model.specs.Runs.State.{Pointer};
ghost use Rattle.sl_model.specs.LibraryCalls.Values.{Value};
ghost use Rattle.sl_model.specs.LibraryCalls.Effects.{Left, key_change};
ghost use Rattle.sl_slots.specs.declared.source.Source.TheVariants.{Old, New};
ghost use Rattle.sl_slots.specs.Shown.{Holds, new_element};
ghost use Rattle.sl_slots.specs.Stored.{elements_at};
ghost use Rattle.sl_effects.specs.Carried.{Carries, GrewBy, is_key_class};
ghost use Rattle.sl_effects.specs.Means.Keys.{grows_over, scatters};

use crate::new_keys::{key_place, key_room};
use crate::picks::Picks;
use crate::scattering::scatter;
use sl_slots::{Element, Rearrangement, Source, Store};
use sl_specs::Class;
use std::alloc::{AllocError, Global};

/// A new key comes into a hash form that is full: it grows by the next pick, its elements are put in again, a pick for
/// each, and the new one by the pick after those. No pick is taken yet.
pub fn rebuild_with(
    store: &mut Store,
    alloc: Global,
    picks: &Picks,
    class: Class,
    container: usize,
    element: Element,
    site: usize,
) -> Result<(), AllocError>
    requires there { container < length store.old.containers.items }
    requires few { length (elements_at store.old container) + 1 < 2 ^ 63 }
    ensures grew { OnOk result (GrewBy 0 store.old store.new) }
    ensures size { OnOk result
        (length (elements_at store.new container) ≡ length (elements_at store.old container) + 1) }
    ensures shows { OnOk result ((left : Left) (ps : List Pointer) (vs : List Value) (x : ℤ × ℤ) →
        is_key_class class ≡ true → scatters (cont_at left.memory container) ≡ true →
        new_element x ≡ element → x.0 ≡ element.key → size (cont_at left.memory container) + 1 ≤ ELEMENTS →
        Carries store.old picks.now left ps vs →
        Holds store.new (after (key_change class (cont_at left.memory container) x left.picks)
        left.memory container (cont_at left.memory container) site) ps vs) }
{
    let size = store.size(container);
    let order = scatter(alloc, size, picks, 1)?;
    let place = key_place(store, container, element.key, picks);
    let by = Rearrangement {
        container,
        size,
        sources: sources_with(alloc, &order, place, element)?,
        room: key_room(store, container, picks),
        all: growth_invalidates(class),
        site,
    };
    store.rearrange(alloc, by)?;
    Ok(())
}

// Elements in an order, and a new one at a place.
fn sources_with(
    alloc: Global,
    order: &[usize],
    place: usize,
    element: Element,
) -> Result<Vec<Source>, AllocError>
    requires { place ≤ length order.now }
    ensures { IfOk result (λ made. made.items ≡ insert (map (λ (k : ℕ). Old k) order.now) place (New element)) }
{
    let mut sources = Vec::new(alloc);
    for from in order {
        sources.push(Source::Old(*from))?;
    }
    sources.insert(place, Source::New(element))?;
    Ok(sources)
}

// Whether a class of rows that put keys in invalidates where a hash form grows.
fn growth_invalidates(class: Class) -> bool
    ensures { result ≡ grows_over class }
{
    match class {
        Class::HashInsert => true,
        _ => false,
    }
}
