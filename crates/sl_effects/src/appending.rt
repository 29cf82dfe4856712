//! Elements that come one by one at the end of a sequence.
ghost use Rattle.std.specs.Prelude.{◌≡◌, ◌+◌, ◌≤◌, ◌<◌, ◌^◌, ℤ, List, length, map, OnOk};
ghost use Rattle.sl_base.specs.declared.limits.TheConstants.{ELEMENTS};
ghost use Rattle.sl_base.specs.declared.form.Form.{Form as FormData};
ghost use Rattle.sl_base.specs.declared.scalar.Scalar.TheVariants.{Int};
ghost use Rattle.sl_specs.specs.declared.class.Class.{Class as ClassData};
ghost use Rattle.sl_model.specs.Numbers.{converted};
ghost use Rattle.sl_model.specs.Memory.Containers.{cont_at, size};
ghost use Rattle.sl_model.specs.Runs.State.{Pointer};
ghost use Rattle.sl_model.specs.LibraryCalls.Values.{Value};
ghost use Rattle.sl_model.specs.LibraryCalls.Situation.{Situation};
ghost use Rattle.sl_model.specs.LibraryCalls.Actions.{appends};
ghost use Rattle.sl_model.specs.LibraryCalls.Effects.{Left, append as append_data, does};
ghost use Rattle.sl_model.specs.LibraryCalls.Effects.{insertion_class as class_of_form};
ghost use Rattle.sl_model.proofs.FineEffects.{IsFine};
ghost use Rattle.sl_slots.specs.Stored.{elements_at};
ghost use Rattle.sl_effects.specs.Carried.{Carries, GrewBy, Meets};
ghost use Rattle.sl_effects.specs.Means.Endings.{IsEndInsertion};

use crate::picks::Picks;
use crate::rooms::{sequence_picks, sequence_room};
use sl_base::Form;
use sl_slots::{Edit, Element, Store};
use sl_specs::Class;
use std::alloc::AllocError;

/// Puts numbers at the end of a sequence, one by one, at a site. Each may take a pick where a vector grows. After
/// AllocError nothing is said.
pub fn append_all(
    store: &mut Store,
    picks: &mut Picks,
    container: usize,
    numbers: &[i32],
    site: usize,
) -> Result<(), AllocError>
    requires there { container < length store.old.containers.items }
    requires few { length (elements_at store.old container) + length numbers.now < 2 ^ 63 }
    ensures grew { OnOk result (GrewBy 0 store.old store.new) }
    ensures shows { OnOk result ((form : FormData) (class : ClassData) (s : Situation)
        (ps : List Pointer) (vs : List Value) (xs : List ℤ) →
        map (converted Int) xs ≡ numbers.now → IsFine class s (appends container xs) →
        Meets store.old picks.old s.object site s ps vs →
        Carries store.new picks.new (does form class s (appends container xs)) ps vs) }
{
    for number in numbers {
        append(store, picks, container, *number, site)?;
    }
    Ok(())
}

// Puts a number at the end of a sequence.
fn append(
    store: &mut Store,
    picks: &mut Picks,
    container: usize,
    number: i32,
    site: usize,
) -> Result<(), AllocError>
    requires there { container < length store.old.containers.items }
    requires few { length (elements_at store.old container) + 1 < 2 ^ 63 }
    ensures grew { OnOk result (GrewBy 0 store.old store.new) }
    ensures size { OnOk result
        (length (elements_at store.new container) ≡ length (elements_at store.old container) + 1) }
    ensures shows { OnOk result ((left : Left) (ps : List Pointer) (vs : List Value) (x : ℤ) →
        converted Int x ≡ number → size (cont_at left.memory container) + 1 ≤ ELEMENTS →
        Carries store.old picks.old left ps vs →
        Carries store.new picks.new (append_data site container (cont_at left.memory container) x left) ps vs) }
{
    let edit = end_insertion(store, picks, container);
    picks.skip(sequence_picks(store, container, 1));
    let element = Element {
        key: number,
        value: 0,
    };
    store.edit(container, &edit, &[element], site)?;
    Ok(())
}

// The edit by which an element comes at the end of a sequence.
fn end_insertion(store: &Store, picks: &Picks, container: usize) -> Edit
    requires there { container < length store.now.containers.items }
    requires few { length (elements_at store.now container) + 1 < 2 ^ 63 }
    ensures from { result.from ≡ length (elements_at store.now container) }
    ensures gone { result.gone ≡ 0 }
    ensures edit { (left : Left) (ps : List Pointer) (vs : List Value) → Carries store.now picks.now left ps vs →
        IsEndInsertion result (cont_at left.memory container) left.picks }
{
    Edit {
        class: insertion_class(store.form(container)),
        from: store.size(container),
        gone: 0,
        room: sequence_room(store, container, 1, picks),
    }
}

/// What an insertion into a sequence of a form invalidates.
pub fn insertion_class(form: Form) -> Class
    ensures { result ≡ class_of_form form }
{
    match form {
        Form::Vector => Class::VectorInsert,
        Form::Deque => Class::DequeInsert,
        _ => Class::Nothing,
    }
}
