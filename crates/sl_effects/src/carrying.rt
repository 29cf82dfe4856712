//! Effects of any kind.
ghost use Rattle.std.specs.Prelude.{List, OnOk};
ghost use Rattle.sl_model.specs.Runs.State.{Pointer};
ghost use Rattle.sl_model.specs.LibraryCalls.Values.{Value};
ghost use Rattle.sl_model.specs.LibraryCalls.Situation.{Situation};
ghost use Rattle.sl_model.specs.LibraryCalls.Actions.{Effect as EffectData};
ghost use Rattle.sl_model.specs.LibraryCalls.Effects.{does};
ghost use Rattle.sl_model.proofs.FineEffects.{IsFine};
ghost use Rattle.sl_effects.specs.Carried.{Carries, GrewBy, Meets};
ghost use Rattle.sl_effects.specs.Effects.{CanBeCarried, IsEffect, coming};

use crate::appending::append_all;
use crate::effect::Effect;
use crate::inserting::insert_all;
use crate::making::{make, make_by_keys};
use crate::picks::Picks;
use crate::steps::{carry_change, carry_edit, carry_trade};
use sl_base::Form;
use sl_slots::Store;
use sl_specs::Class;
use std::alloc::{AllocError, Global};

/// Carries out an effect of a row, which has a form and a class, on an object at a site. In the memory it is the effect
/// of the model that has the same numbers. After AllocError nothing is said.
pub fn carry_out(
    store: &mut Store,
    alloc: Global,
    picks: &mut Picks,
    form: Form,
    class: Class,
    object: usize,
    site: usize,
    effect: Effect,
) -> Result<(), AllocError>
    requires { CanBeCarried effect object site store.old }
    ensures grew { OnOk result (GrewBy (coming effect) store.old store.new) }
    ensures shows { OnOk result ((s : Situation) (ps : List Pointer) (vs : List Value) (e : EffectData) →
        IsEffect class s effect e → IsFine class s e → Meets store.old picks.old object site s ps vs →
        Carries store.new picks.new (does form class s e) ps vs) }
{
    match effect {
        Effect::Keeps => Ok(()),
        Effect::Edits { taken, edit, come } => {
            carry_edit(store, picks, taken, object, &edit, &come, site)?;
            Ok(())
        }
        Effect::Changes { taken, by } => {
            carry_change(store, alloc, picks, taken, by)?;
            Ok(())
        }
        Effect::Trades(by) => {
            carry_trade(store, alloc, by)?;
            Ok(())
        }
        Effect::Inserts(elements) => {
            insert_all(store, alloc, picks, class, object, &elements, site)?;
            Ok(())
        }
        Effect::Appends { container, numbers } => {
            append_all(store, picks, container, &numbers, site)?;
            Ok(())
        }
        Effect::Makes {
            taken,
            room,
            elements,
        } => {
            make(store, picks, taken, form, room, elements)?;
            Ok(())
        }
        Effect::MakesByKeys {
            taken,
            room,
            elements,
        } => {
            make_by_keys(
                store, alloc, picks, taken, class, form, room, &elements, site,
            )?;
            Ok(())
        }
    }
}
