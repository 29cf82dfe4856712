//! What a new key takes: picks, a room and a place. Nothing is taken yet.
ghost use Rattle.std.specs.Prelude.{◌≡◌, ◌≤◌, ◌+◌, ◌<◌, ◌^◌, List, length};
ghost use Rattle.sl_model.specs.Memory.Containers.{Memory, cont_at};
ghost use Rattle.sl_model.specs.Runs.State.{Pointer};
ghost use Rattle.sl_model.specs.LibraryCalls.Values.{Value};
ghost use Rattle.sl_model.specs.LibraryCalls.Effects.{Left, key_picks as picks_of_key};
ghost use Rattle.sl_model.specs.LibraryCalls.Effects.{key_place as place_of_key, key_room as room_of_key};
ghost use Rattle.sl_slots.specs.Shown.{Holds};
ghost use Rattle.sl_slots.specs.Stored.{elements_at};
ghost use Rattle.sl_effects.specs.Carried.{Carries};
ghost use Rattle.sl_effects.specs.Means.Keys.{picks_in_hash, scatters};

use crate::keys::{is_hashed, ordered_place};
use crate::picks::Picks;
use crate::rooms::{grown_room, lacks_room};
use crate::scattering::hash_place;
use sl_slots::Store;

/// Whether a new key makes a container grow and put all its elements in again.
pub fn is_rebuilt(store: &Store, container: usize) -> bool
    requires there { container < length store.now.containers.items }
    requires few { length (elements_at store.now container) + 1 < 2 ^ 63 }
    ensures { (m : Memory) (ps : List Pointer) (vs : List Value) → Holds store.now m ps vs →
        result ≡ scatters (cont_at m container) }
{
    if is_hashed(store.form(container)) {
        return lacks_room(store, container, 1);
    }
    false
}

/// How many picks a new key takes.
pub fn key_picks(store: &Store, container: usize) -> usize
    requires there { container < length store.now.containers.items }
    requires few { length (elements_at store.now container) + 1 < 2 ^ 63 }
    ensures { (m : Memory) (ps : List Pointer) (vs : List Value) → Holds store.now m ps vs →
        result ≡ picks_of_key (cont_at m container) }
{
    if is_hashed(store.form(container)) {
        return hash_picks(store, container);
    }
    0
}

// How many picks a new key takes in a hash form.
fn hash_picks(store: &Store, container: usize) -> usize
    requires there { container < length store.now.containers.items }
    requires few { length (elements_at store.now container) + 1 < 2 ^ 63 }
    ensures { (m : Memory) (ps : List Pointer) (vs : List Value) → Holds store.now m ps vs →
        result ≡ picks_in_hash (cont_at m container) }
{
    if lacks_room(store, container, 1) {
        return store.size(container) + 2;
    }
    1
}

/// The room of a container after a new key.
pub fn key_room(store: &Store, container: usize, picks: &Picks) -> usize
    requires there { container < length store.now.containers.items }
    requires few { length (elements_at store.now container) + 1 < 2 ^ 63 }
    ensures { (left : Left) (ps : List Pointer) (vs : List Value) → Carries store.now picks.now left ps vs →
        result ≡ room_of_key (cont_at left.memory container) left.picks }
{
    if is_hashed(store.form(container)) {
        return grown_room(store, container, 1, picks);
    }
    store.room(container)
}

/// The place of a new key: by the order of keys, or by the last pick that it takes.
pub fn key_place(store: &Store, container: usize, key: i32, picks: &Picks) -> usize
    requires there { container < length store.now.containers.items }
    requires few { length (elements_at store.now container) + 1 < 2 ^ 63 }
    ensures within { result ≤ length (elements_at store.now container) }
    ensures shows { (left : Left) (ps : List Pointer) (vs : List Value) →
        Carries store.now picks.now left ps vs → result ≡ place_of_key (cont_at left.memory container) key left.picks }
{
    if is_hashed(store.form(container)) {
        let last = key_picks(store, container).saturating_sub(1);
        return hash_place(store.size(container), picks.peek(last));
    }
    ordered_place(store, container, key)
}
