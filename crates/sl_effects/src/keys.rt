//! Where keys stand in a container, and where a new one goes.
ghost use Rattle.std.specs.Prelude.{◌≡◌, ◌≤◌, ◌<◌, List, length};
ghost use Rattle.sl_specs.specs.Forms.{is_hash};
ghost use Rattle.sl_model.specs.Memory.Containers.{Memory, cont_at};
ghost use Rattle.sl_model.specs.Memory.Forms.{holds_equal_keys};
ghost use Rattle.sl_model.specs.Memory.Orders.{how_many, index_of_key, same};
ghost use Rattle.sl_model.specs.Runs.State.{Pointer};
ghost use Rattle.sl_model.specs.LibraryCalls.Values.{Value};
ghost use Rattle.sl_model.specs.LibraryCalls.Effects.{known_key, ordered_place as place_in_order};
ghost use Rattle.sl_slots.specs.Shown.{Holds};
ghost use Rattle.sl_slots.specs.Stored.{elements_at};
ghost use Rattle.sl_effects.specs.Means.Keys.{goes_before as goes_before_key, keys_of};

use sl_base::Form;
use sl_slots::{Element, Store};

/// The place of a key that keeps an equal one out of a container.
pub fn known_place(store: &Store, container: usize, key: i32) -> Option<usize>
    requires { container < length store.now.containers.items }
    ensures { (m : Memory) (ps : List Pointer) (vs : List Value) → Holds store.now m ps vs →
        result ≡ known_key (cont_at m container) key }
{
    if has_equal_keys(store.form(container)) {
        return None;
    }
    find_key(&store.containers[container].elements, key)
}

/// The place of a new key in the order of keys, behind equal ones where they may be.
pub fn ordered_place(store: &Store, container: usize, key: i32) -> usize
    requires { container < length store.now.containers.items }
    ensures within { result ≤ length (elements_at store.now container) }
    ensures shows { (m : Memory) (ps : List Pointer) (vs : List Value) → Holds store.now m ps vs →
        result ≡ place_in_order (cont_at m container) key }
{
    let equal = has_equal_keys(store.form(container));
    count_before(&store.containers[container].elements, key, equal)
}

/// Whether the order of a form is a hash order.
pub fn is_hashed(form: Form) -> bool
    ensures { result ≡ is_hash form }
{
    match form {
        Form::HashSet => true,
        Form::HashMap => true,
        _ => false,
    }
}

// Whether a form may hold equal keys.
fn has_equal_keys(form: Form) -> bool
    ensures { result ≡ holds_equal_keys form }
{
    match form {
        Form::MultiSet => true,
        Form::MultiMap => true,
        _ => false,
    }
}

// The index of the first element with a key.
fn find_key(elements: &[Element], key: i32) -> Option<usize>
    ensures { result ≡ index_of_key key (keys_of elements.now) }
{
    for i in 0..elements.len() {
        if has_key(elements[i], key) {
            return Some(i);
        }
    }
    None
}

// Whether an element has a key.
fn has_key(element: Element, key: i32) -> bool
    ensures { result ≡ same key element.key }
{
    key == element.key
}

// How many elements go before a new key.
fn count_before(elements: &[Element], key: i32, equal: bool) -> usize
    ensures within { result ≤ length elements.now }
    ensures value { result ≡ how_many (goes_before_key equal key) (keys_of elements.now) }
{
    let mut count = 0;
    for i in 0..elements.len() {
        if goes_before(elements[i], key, equal) {
            count += 1;
        }
    }
    count
}

// Whether an element goes before a new key.
fn goes_before(element: Element, key: i32, equal: bool) -> bool
    ensures { result ≡ goes_before_key equal key element.key }
{
    if equal {
        element.key <= key
    } else {
        element.key < key
    }
}
