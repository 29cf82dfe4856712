//! What a change does to what stands in containers.
ghost use Rattle.std.specs.Prelude.{◌≡◌};
ghost use Rattle.sl_slots.specs.Fates.{IsFit, IsReady, ends, iterator_fate, kills_by, loses_by, moves, pointer_after};
ghost use Rattle.sl_slots.specs.Fates.{reference_fate, shifted_by, slot_after, value_after};
ghost use Rattle.sl_slots.specs.Rearranging.{kills_in, loses_in, place_in};

use crate::edit::Editing;
use crate::invalidation::{invalidates, invalidates_references, shifted};
use crate::rearrangement::{Rearrangement, new_place, rearrangement_kills, rearrangement_loses};
use crate::slot::{Pointer, Slot, Value};
use crate::trade::{Trade, trade_goes};

/// A change, by what it does to iterators and references.
#[derive(Drop)]
pub enum Motion {
    /// The containers from number `first` on end.
    Ends { first: usize, site: usize },
    /// Elements of a container go and come.
    Edits(Editing),
    /// A container is put together anew.
    Rearranges(Rearrangement),
    /// Two containers exchange elements.
    Trades(Trade),
}

// An iterator after a change.
fn iterator_moved(by: &Motion, slot: Slot) -> Slot
    requires { IsReady by.now }
    ensures { result ≡ slot_after (iterator_fate by.now) slot }
{
    match slot {
        Slot::Stands { container, place } => iterator_goes(by, container, place),
        Slot::Gone { .. } => slot,
    }
}

// What becomes of an iterator at a place of a container.
fn iterator_goes(by: &Motion, container: usize, place: usize) -> Slot
    requires { IsReady by.now }
    ensures { result ≡ iterator_fate by.now container place }
{
    match by {
        Motion::Ends { first, site } => ended(*first, *site, container, place),
        Motion::Edits(e) => iterator_edited(e, container, place),
        Motion::Rearranges(r) => iterator_rearranged(r, container, place),
        Motion::Trades(t) => trade_goes(t, container, place),
    }
}

// A reference after a change.
fn reference_moved(by: &Motion, slot: Slot) -> Slot
    requires { IsReady by.now }
    ensures { result ≡ slot_after (reference_fate by.now) slot }
{
    match slot {
        Slot::Stands { container, place } => reference_goes(by, container, place),
        Slot::Gone { .. } => slot,
    }
}

// What becomes of a reference at a place of a container.
fn reference_goes(by: &Motion, container: usize, place: usize) -> Slot
    requires { IsReady by.now }
    ensures { result ≡ reference_fate by.now container place }
{
    match by {
        Motion::Ends { first, site } => ended(*first, *site, container, place),
        Motion::Edits(e) => reference_edited(e, container, place),
        Motion::Rearranges(r) => reference_rearranged(r, container, place),
        Motion::Trades(t) => trade_goes(t, container, place),
    }
}

// What becomes of an iterator at a place of a container in an edit.
fn iterator_edited(e: &Editing, container: usize, place: usize) -> Slot
    requires { IsFit e.now }
    ensures { result ≡ moves e.now.container (kills_by e.now) (shifted_by e.now) e.now.site container place }
{
    if container != e.container {
        return Slot::Stands { container, place };
    }
    if invalidates(e, place) {
        return Slot::Gone { site: Some(e.site) };
    }
    let place = shifted(e, place);
    Slot::Stands { container, place }
}

// What becomes of a reference at a place of a container in an edit.
fn reference_edited(e: &Editing, container: usize, place: usize) -> Slot
    requires { IsFit e.now }
    ensures { result ≡ moves e.now.container (loses_by e.now) (shifted_by e.now) e.now.site container place }
{
    if container != e.container {
        return Slot::Stands { container, place };
    }
    if invalidates_references(e, place) {
        return Slot::Gone { site: Some(e.site) };
    }
    let place = shifted(e, place);
    Slot::Stands { container, place }
}

// What becomes of an iterator at a place of a container, where one is put together anew.
fn iterator_rearranged(by: &Rearrangement, container: usize, place: usize) -> Slot
    ensures { result ≡ moves by.now.container (kills_in by.now) (place_in by.now) by.now.site container place }
{
    if container != by.container {
        return Slot::Stands { container, place };
    }
    if rearrangement_kills(by, place) {
        return Slot::Gone {
            site: Some(by.site),
        };
    }
    let place = new_place(by, place);
    Slot::Stands { container, place }
}

// What becomes of a reference at a place of a container, where one is put together anew.
fn reference_rearranged(by: &Rearrangement, container: usize, place: usize) -> Slot
    ensures { result ≡ moves by.now.container (loses_in by.now) (place_in by.now) by.now.site container place }
{
    if container != by.container {
        return Slot::Stands { container, place };
    }
    if rearrangement_loses(by, place) {
        return Slot::Gone {
            site: Some(by.site),
        };
    }
    let place = new_place(by, place);
    Slot::Stands { container, place }
}

// What becomes of what stands at a place of a container, where containers end.
fn ended(first: usize, site: usize, container: usize, place: usize) -> Slot
    ensures { result ≡ ends first site container place }
{
    if container < first {
        Slot::Stands { container, place }
    } else {
        Slot::Gone { site: Some(site) }
    }
}

/// What a variable holds after a change.
pub fn pointer_moved(by: &Motion, pointer: Pointer) -> Pointer
    requires { IsReady by.now }
    ensures { result ≡ pointer_after by.now pointer }
{
    match pointer {
        Pointer::Iterator(slot) => Pointer::Iterator(iterator_moved(by, slot)),
        Pointer::Reference(slot, part) => Pointer::Reference(reference_moved(by, slot), part),
    }
}

/// A value after a change.
pub fn value_moved(by: &Motion, value: Value) -> Value
    requires { IsReady by.now }
    ensures { result ≡ value_after by.now value }
{
    match value {
        Value::Iterator(slot) => Value::Iterator(iterator_moved(by, slot)),
        Value::Pair(slot, flag) => Value::Pair(iterator_moved(by, slot), flag),
        Value::Two(slot, other) => Value::Two(iterator_moved(by, slot), iterator_moved(by, other)),
        _ => value,
    }
}
