//! What an edit invalidates and where it moves the rest.
ghost use Rattle.std.specs.Prelude.{◌≡◌};
ghost use Rattle.sl_specs.specs.declared.class.Class.TheVariants.{DequeResize, HashInsert, VectorResize};
ghost use Rattle.sl_model.specs.Memory.Classes.{kills, loses};
ghost use Rattle.sl_model.specs.Memory.Classes.{vector_insert_kills, vector_erase_kills, deque_insert_kills};
ghost use Rattle.sl_model.specs.Memory.Classes.{deque_erase_kills, deque_insert_loses, deque_erase_loses, is_gone};
ghost use Rattle.sl_slots.specs.Fates.{IsFit, edit_of, kills_by, loses_by, shifted_by};

use crate::edit::Editing;
use sl_specs::Class;

// Whether an insertion into a vector invalidates a place.
fn insertion_kills(e: &Editing, place: usize) -> bool
    requires { IsFit e.now }
    ensures { result ≡ vector_insert_kills e.now.size e.now.room e.now.edit.from e.now.come place }
{
    if e.come == 0 {
        return false;
    }
    if e.room < e.size + e.come {
        return true;
    }
    e.edit.from <= place
}

// Whether an erasure from a vector invalidates a place.
fn erasure_kills(e: &Editing, place: usize) -> bool
    ensures { result ≡ vector_erase_kills e.now.edit.from e.now.edit.gone place }
{
    if e.edit.gone == 0 {
        return false;
    }
    e.edit.from <= place
}

// Whether an erasure from a deque invalidates the iterators at a place.
fn deque_erasure_kills(e: &Editing, place: usize) -> bool
    requires { IsFit e.now }
    ensures { result ≡ deque_erase_kills e.now.size e.now.edit.from e.now.edit.gone place }
{
    if e.edit.gone == 0 {
        return false;
    }
    if e.edit.from + e.edit.gone == e.size {
        return e.edit.from <= place;
    }
    if e.edit.from == 0 {
        return place < e.edit.gone;
    }
    true
}

// Whether an insertion into a deque invalidates references.
fn deque_insertion_loses(e: &Editing) -> bool
    ensures { result ≡ deque_insert_loses e.now.size e.now.edit.from e.now.come }
{
    if e.come == 0 {
        return false;
    }
    e.edit.from != 0 && e.edit.from != e.size
}

// Whether an element goes from a place.
fn goes(e: &Editing, place: usize) -> bool
    requires { IsFit e.now }
    ensures { result ≡ is_gone (edit_of e.now) place }
{
    e.edit.from <= place && place < e.edit.from + e.edit.gone
}

// Whether an erasure from a deque invalidates the references to the element at a place.
fn deque_erasure_loses(e: &Editing, place: usize) -> bool
    requires { IsFit e.now }
    ensures { result ≡ deque_erase_loses e.now.size (edit_of e.now) place }
{
    if e.edit.gone == 0 {
        return false;
    }
    if e.edit.from == 0 || e.edit.from + e.edit.gone == e.size {
        return goes(e, place);
    }
    true
}

/// Whether an edit invalidates the iterators at a place.
pub fn invalidates(e: &Editing, place: usize) -> bool
    requires { IsFit e.now }
    ensures { result ≡ kills_by e.now place }
{
    match e.edit.class {
        Class::Nothing => false,
        Class::VectorInsert => insertion_kills(e, place),
        Class::VectorErase => erasure_kills(e, place),
        Class::VectorReserve => e.room < e.edit.room,
        Class::VectorResize => resize_kills(e, place),
        Class::DequeResize => deque_resize_kills(e, place),
        Class::DequeInsert => e.come != 0,
        Class::DequeErase => deque_erasure_kills(e, place),
        Class::ErasedOnly => goes(e, place),
        Class::HashInsert => hash_insertion_kills(e),
        Class::HashReserve => true,
        Class::AllAndEnd => true,
        Class::Swap => place == e.size,
    }
}

// Whether a resize of a vector invalidates a place.
fn resize_kills(e: &Editing, place: usize) -> bool
    requires { IsFit e.now }
    ensures { result ≡ kills VectorResize e.now.size e.now.room (edit_of e.now) place }
{
    if e.edit.gone == 0 {
        insertion_kills(e, place)
    } else {
        erasure_kills(e, place)
    }
}

// Whether a resize of a deque invalidates the iterators at a place.
fn deque_resize_kills(e: &Editing, place: usize) -> bool
    requires { IsFit e.now }
    ensures { result ≡ kills DequeResize e.now.size e.now.room (edit_of e.now) place }
{
    if e.edit.gone == 0 {
        e.come != 0
    } else {
        deque_erasure_kills(e, place)
    }
}

// Whether a key that comes into a hash form invalidates the iterators.
fn hash_insertion_kills(e: &Editing) -> bool
    requires { IsFit e.now }
    ensures { result ≡ kills HashInsert e.now.size e.now.room (edit_of e.now) 0 }
{
    if e.come == 0 {
        false
    } else {
        e.room < e.size + e.come
    }
}

// Whether a resize of a deque invalidates the references to the element at a place.
fn deque_resize_loses(e: &Editing, place: usize) -> bool
    requires { IsFit e.now }
    ensures { result ≡ loses DequeResize e.now.size e.now.room (edit_of e.now) place }
{
    if e.edit.gone == 0 {
        deque_insertion_loses(e)
    } else {
        deque_erasure_loses(e, place)
    }
}

/// Whether an edit invalidates the references to the element at a place.
pub fn invalidates_references(e: &Editing, place: usize) -> bool
    requires { IsFit e.now }
    ensures { result ≡ loses_by e.now place }
{
    match e.edit.class {
        Class::Nothing => false,
        Class::VectorInsert => insertion_kills(e, place),
        Class::VectorErase => erasure_kills(e, place),
        Class::VectorReserve => e.room < e.edit.room,
        Class::VectorResize => resize_kills(e, place),
        Class::DequeResize => deque_resize_loses(e, place),
        Class::DequeInsert => deque_insertion_loses(e),
        Class::DequeErase => deque_erasure_loses(e, place),
        Class::ErasedOnly => goes(e, place),
        Class::HashInsert => false,
        Class::HashReserve => false,
        Class::AllAndEnd => true,
        Class::Swap => false,
    }
}

/// Where an edit moves what stands at a place and isn't invalidated.
pub fn shifted(e: &Editing, place: usize) -> usize
    ensures { result ≡ shifted_by e.now place }
{
    if place < e.edit.from {
        return place;
    }
    place.saturating_add(e.come).saturating_sub(e.edit.gone)
}
