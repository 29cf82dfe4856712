//! What is done for its effect, and what is tested.
ghost use Rattle.std.specs.Prelude.{◌≡◌, [], IfOk, OnOk, option_map};
ghost use Rattle.sl_syntax.specs.TreeView.{effect_of, cond_of};
ghost use Rattle.sl_syntax.specs.TypedView as view;
ghost use Rattle.sl_typing.specs.Flow as flow;
ghost use Rattle.sl_typing.specs.StatementFaults as faults;
ghost use Rattle.sl_typing.specs.StatementNumbering as spec;
ghost use Rattle.sl_number_limits.specs.Fits.{Fits};

use crate::assignments::assignment;
use crate::prints::prints;
use crate::reads::read_numbers;
use crate::values::expression;
use sl_contexts::Known;
use sl_syntax::typed::{Cond as TypedCond, Effect as TypedEffect};
use sl_syntax::{Cond, Effect};
use std::alloc::{AllocError, Global};

/// An effect; then is known what is known behind it.
pub fn effect(alloc: Global, known: &mut Known, w: &Effect) -> Result<TypedEffect, AllocError>
    requires fits { Fits known.old }
    requires kept { faults.effect_faults known.old (effect_of w.now) ≡ [] }
    ensures typed { IfOk result (λ x. view.effect_of x ≡ spec.typed_effect known.old (effect_of w.now)) }
    ensures behind { OnOk result (known.new ≡ flow.behind_effect known.old (effect_of w.now)) }
{
    match w {
        Effect::Read(read) => {
            let numbers = read_numbers(alloc, known, read)?;
            Ok(TypedEffect::Read(numbers))
        }
        Effect::Print(print) => {
            let items = prints(alloc, known, print.items.as_slice())?;
            Ok(TypedEffect::Print(items))
        }
        Effect::Value(e) => {
            let value = expression(alloc, known, e)?;
            Ok(TypedEffect::Evaluate(value))
        }
        Effect::Assign {
            left,
            operator,
            place,
            right,
        } => assignment(alloc, known, left, *operator, *place, right),
    }
}

/// A condition; then is known what is known behind it.
pub fn condition(alloc: Global, known: &mut Known, k: &Cond) -> Result<TypedCond, AllocError>
    requires fits { Fits known.old }
    requires kept { faults.cond_faults known.old (cond_of k.now) ≡ [] }
    ensures typed { IfOk result (λ x. view.cond_of x ≡ spec.typed_cond known.old (cond_of k.now)) }
    ensures behind { OnOk result (known.new ≡ flow.behind_cond known.old (cond_of k.now)) }
{
    match k {
        Cond::Read(read) => {
            let numbers = read_numbers(alloc, known, read)?;
            Ok(TypedCond::Read(numbers))
        }
        Cond::NotRead { read, .. } => {
            let numbers = read_numbers(alloc, known, read)?;
            Ok(TypedCond::NotRead(numbers))
        }
        Cond::Value(e) => {
            let value = expression(alloc, known, e)?;
            Ok(TypedCond::Test(value))
        }
    }
}

/// The condition of a `for`, which may be missing; then is known what is known behind it.
pub fn test(alloc: Global, known: &mut Known, k: &Option<Cond>) -> Result<TypedCond, AllocError>
    requires fits { Fits known.old }
    requires kept { faults.test_faults known.old (option_map cond_of k.now) ≡ [] }
    ensures typed { IfOk result (λ x. view.cond_of x ≡ spec.typed_test known.old (option_map cond_of k.now)) }
    ensures behind { OnOk result (known.new ≡ flow.behind_test known.old (option_map cond_of k.now)) }
{
    match k {
        None => Ok(TypedCond::Always),
        Some(k) => condition(alloc, known, k),
    }
}

/// The last part of a `for`, which may be missing; then is known what is known behind it.
pub fn last_part(
    alloc: Global,
    known: &mut Known,
    last: &Option<Effect>,
) -> Result<Option<TypedEffect>, AllocError>
    requires fits { Fits known.old }
    requires kept { faults.last_faults known.old (option_map effect_of last.now) ≡ [] }
    ensures typed { IfOk result (λ x. option_map view.effect_of x ≡ option_map (spec.typed_effect known.old) (option_map effect_of last.now)) }
    ensures behind { OnOk result (known.new ≡ flow.behind_last known.old (option_map effect_of last.now)) }
{
    match last {
        None => Ok(None),
        Some(w) => {
            let done = effect(alloc, known, w)?;
            Ok(Some(done))
        }
    }
}
