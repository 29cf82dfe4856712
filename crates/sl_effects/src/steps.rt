//! Edits, changes and exchanges that a call makes at once.
ghost use Rattle.std.specs.Prelude.{◌≡◌, ◌≢◌, ◌≤◌, ◌<◌, ◌+◌, ◌^◌, List, length, OnOk};
ghost use Rattle.sl_base.specs.declared.form.Form.{Form as FormData};
ghost use Rattle.sl_specs.specs.declared.class.Class.{Class as ClassData};
ghost use Rattle.sl_model.specs.Memory.Classes.{Edit as EditData};
ghost use Rattle.sl_model.specs.Memory.Containers.{cont_at};
ghost use Rattle.sl_model.specs.Memory.Edits.{Change};
ghost use Rattle.sl_model.specs.Runs.State.{Pointer};
ghost use Rattle.sl_model.specs.LibraryCalls.Values.{Value};
ghost use Rattle.sl_model.specs.LibraryCalls.Situation.{Situation};
ghost use Rattle.sl_model.specs.LibraryCalls.Actions.{changes, edits, trades};
ghost use Rattle.sl_model.specs.LibraryCalls.Effects.{does};
ghost use Rattle.sl_model.proofs.FineEffects.{IsFine};
ghost use Rattle.sl_slots.specs.Rearranging.{IsRearranged};
ghost use Rattle.sl_slots.specs.Stored.{Edited, IsEdit, Rearranged, Traded, elements_at};
ghost use Rattle.sl_slots.specs.Trading.{IsSide};
ghost use Rattle.sl_effects.specs.declared.picks.Picks.{Picks as PicksData};
ghost use Rattle.sl_effects.specs.Carried.{Carries, GrewBy, Meets};

use crate::picks::Picks;
use sl_slots::{Edit, Element, Rearrangement, Store, Trade};
use std::alloc::{AllocError, Global};

/// Carries out an edit of a container, by which these elements come, at a site; the call took so many picks. In the
/// memory it is the effect of the edit that has the same numbers. After AllocError nothing is said.
pub fn carry_edit(
    store: &mut Store,
    picks: &mut Picks,
    taken: usize,
    container: usize,
    edit: &Edit,
    come: &[Element],
    site: usize,
) -> Result<(), AllocError>
    requires there { container < length store.old.containers.items }
    requires inside { edit.now.from + edit.now.gone ≤ length (elements_at store.old container) }
    requires few { length (elements_at store.old container) + length come.now < 2 ^ 63 }
    ensures grew { OnOk result (GrewBy 0 store.old store.new) }
    ensures edited { OnOk result (Edited container edit.now come.now site store.old store.new) }
    ensures shows { OnOk result ((form : FormData) (s : Situation) (ps : List Pointer) (vs : List Value)
        (e : EditData) →
        IsEdit e edit.now come.now → IsFine edit.now.class s (edits taken e) →
        Meets store.old picks.old container site s ps vs →
        Carries store.new picks.new (does form edit.now.class s (edits taken e)) ps vs) }
{
    picks.skip(taken);
    store.edit(container, edit, come, site)?;
    Ok(())
}

/// Puts a container together anew; the call took so many picks. In the memory it is the effect of each change that has
/// the same numbers. After AllocError nothing is said.
pub fn carry_change(
    store: &mut Store,
    alloc: Global,
    picks: &mut Picks,
    taken: usize,
    by: Rearrangement,
) -> Result<(), AllocError>
    requires there { by.container < length store.old.containers.items }
    requires size { by.size ≡ length (elements_at store.old by.container) }
    ensures grew { OnOk result (GrewBy 0 store.old store.new) }
    ensures rearranged { OnOk result (Rearranged by store.old store.new) }
    ensures shows { OnOk result ((form : FormData) (class : ClassData) (s : Situation)
        (ps : List Pointer) (vs : List Value) (ch : Change) →
        IsRearranged by (cont_at s.memory by.container) ch → IsFine class s (changes taken by.container ch) →
        Meets store.old picks.old s.object by.site s ps vs →
        Carries store.new picks.new (does form class s (changes taken by.container ch)) ps vs) }
{
    picks.skip(taken);
    store.rearrange(alloc, by)?;
    Ok(())
}

/// Two containers, the first of which is the object, exchange elements; no pick is taken. In the memory it is the
/// effect of each two changes that have the same numbers. After AllocError nothing is said.
pub fn carry_trade(store: &mut Store, alloc: Global, by: Trade) -> Result<(), AllocError>
    requires first { by.first.container < length store.old.containers.items }
    requires second { by.second.container < length store.old.containers.items }
    requires differ { by.first.container ≢ by.second.container }
    requires first_size { by.first.size ≡ length (elements_at store.old by.first.container) }
    requires second_size { by.second.size ≡ length (elements_at store.old by.second.container) }
    ensures grew { OnOk result (GrewBy 0 store.old store.new) }
    ensures traded { OnOk result (Traded by store.old store.new) }
    ensures shows { OnOk result ((form : FormData) (class : ClassData) (picks : PicksData) (s : Situation)
        (ps : List Pointer) (vs : List Value) (ch dh : Change) →
        IsSide by.first by.ends (cont_at s.memory by.first.container) ch →
        IsSide by.second by.ends (cont_at s.memory by.second.container) dh →
        IsFine class s (trades by.second.container ch dh) → Meets store.old picks by.first.container by.site s ps vs →
        Carries store.new picks (does form class s (trades by.second.container ch dh)) ps vs) }
{
    store.trade(alloc, by)?;
    Ok(())
}
