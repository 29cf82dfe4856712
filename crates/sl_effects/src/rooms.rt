//! Rooms of containers into which elements come, and how many picks that takes. Nothing is taken yet.
ghost use Rattle.std.specs.Prelude.{◌≡◌, ◌+◌, ◌<◌, ◌^◌, List, length};
ghost use Rattle.sl_base.specs.declared.form.Form.TheVariants.{Vector};
ghost use Rattle.sl_model.specs.Memory.Containers.{Memory, cont_at};
ghost use Rattle.sl_model.specs.Runs.State.{Pointer};
ghost use Rattle.sl_model.specs.LibraryCalls.Values.{Value};
ghost use Rattle.sl_model.specs.LibraryCalls.Effects.{Left, grown_picks as picks_grown, grown_room as room_grown};
ghost use Rattle.sl_model.specs.LibraryCalls.Effects.{is_full, picks_with, room_with};
ghost use Rattle.sl_slots.specs.Shown.{Holds};
ghost use Rattle.sl_slots.specs.Stored.{elements_at};
ghost use Rattle.sl_effects.specs.Carried.{Carries};

use crate::picks::Picks;
use sl_base::Form;
use sl_slots::Store;

/// Whether so many elements more don't fit in the room of a container.
pub fn lacks_room(store: &Store, container: usize, come: usize) -> bool
    requires there { container < length store.now.containers.items }
    requires few { length (elements_at store.now container) + come < 2 ^ 63 }
    ensures { (m : Memory) (ps : List Pointer) (vs : List Value) → Holds store.now m ps vs →
        result ≡ is_full (cont_at m container) come }
{
    store.room(container) < store.size(container) + come
}

/// The room of a container after so many elements come: where they are too many for it, their number and the next
/// pick.
pub fn grown_room(store: &Store, container: usize, come: usize, picks: &Picks) -> usize
    requires there { container < length store.now.containers.items }
    requires few { length (elements_at store.now container) + come < 2 ^ 63 }
    ensures { (left : Left) (ps : List Pointer) (vs : List Value) → Carries store.now picks.now left ps vs →
        result ≡ room_grown (cont_at left.memory container) come left.picks }
{
    if lacks_room(store, container, come) {
        return store.size(container) + come + picks.peek(0) as usize;
    }
    store.room(container)
}

/// How many picks that takes.
pub fn grown_picks(store: &Store, container: usize, come: usize) -> usize
    requires there { container < length store.now.containers.items }
    requires few { length (elements_at store.now container) + come < 2 ^ 63 }
    ensures { (m : Memory) (ps : List Pointer) (vs : List Value) → Holds store.now m ps vs →
        result ≡ picks_grown (cont_at m container) come }
{
    if lacks_room(store, container, come) {
        1
    } else {
        0
    }
}

/// The room of a sequence after so many elements come, of which a vector's may grow.
pub fn sequence_room(store: &Store, container: usize, come: usize, picks: &Picks) -> usize
    requires there { container < length store.now.containers.items }
    requires few { length (elements_at store.now container) + come < 2 ^ 63 }
    ensures { (left : Left) (ps : List Pointer) (vs : List Value) → Carries store.now picks.now left ps vs →
        result ≡ room_with (cont_at left.memory container).form (cont_at left.memory container) come left.picks }
{
    match store.form(container) {
        Form::Vector => vector_room(store, container, come, picks),
        _ => store.room(container),
    }
}

/// How many picks that takes.
pub fn sequence_picks(store: &Store, container: usize, come: usize) -> usize
    requires there { container < length store.now.containers.items }
    requires few { length (elements_at store.now container) + come < 2 ^ 63 }
    ensures { (m : Memory) (ps : List Pointer) (vs : List Value) → Holds store.now m ps vs →
        result ≡ picks_with (cont_at m container).form (cont_at m container) come }
{
    match store.form(container) {
        Form::Vector => vector_picks(store, container, come),
        _ => 0,
    }
}

// The room of a vector after so many elements come; where none comes, it stays.
fn vector_room(store: &Store, container: usize, come: usize, picks: &Picks) -> usize
    requires there { container < length store.now.containers.items }
    requires few { length (elements_at store.now container) + come < 2 ^ 63 }
    ensures { (left : Left) (ps : List Pointer) (vs : List Value) → Carries store.now picks.now left ps vs →
        result ≡ room_with Vector (cont_at left.memory container) come left.picks }
{
    if come == 0 {
        return store.room(container);
    }
    grown_room(store, container, come, picks)
}

// How many picks that takes.
fn vector_picks(store: &Store, container: usize, come: usize) -> usize
    requires there { container < length store.now.containers.items }
    requires few { length (elements_at store.now container) + come < 2 ^ 63 }
    ensures { (m : Memory) (ps : List Pointer) (vs : List Value) → Holds store.now m ps vs →
        result ≡ picks_with Vector (cont_at m container) come }
{
    if come == 0 {
        return 0;
    }
    grown_picks(store, container, come)
}
