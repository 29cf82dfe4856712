//! What a program is typed as.
ghost use Rattle.std.specs.Prelude.{◌≡◌, ◌⊎◌, ℕ, IfOk, IsErrAnd, MatchResult};
ghost use Rattle.sl_base.specs.declared.place.Place.{Place};
ghost use Rattle.sl_syntax.specs.Typed as texts;
ghost use Rattle.sl_syntax.specs.TreeView.{program_of};
ghost use Rattle.sl_syntax.specs.TypedView.{typed_of};
ghost use Rattle.sl_typing.specs.declared.fault.Fault.{Fault};
ghost use Rattle.sl_typing.specs.Typing as spec;

use crate::error::TypeErr;
use crate::program::typed_program;
use sl_first_fault::first_fault;
use sl_syntax::Program;
use sl_syntax::typed::Typed;
use std::alloc::Global;

/// The typed text of a program that breaks no rule of typing.
///
/// `TypeErr::Memory` comes where memory runs out; `TypeErr::At` exactly where the program breaks a rule, with the first
/// that it breaks and its place.
pub fn resolve(alloc: Global, p: &Program) -> Result<Typed, TypeErr>
    // What is answered is so.
    ensures typed { IfOk result (λ text. spec.Typed (program_of p.now) (typed_of text)) }
    ensures fault { (place : Place) (rule : ℕ) → result ≡ Err (TypeErr.At place rule)
        → spec.FirstBroken (program_of p.now) (record { place = place; rule = rule }) }
    // What is so is answered, unless memory runs out.
    ensures only_typed { (u : texts.Typed) → spec.Typed (program_of p.now) u
        → MatchResult result (λ text. typed_of text ≡ u) (λ e. e ≡ TypeErr.Memory) }
    ensures only_fault { (x : Fault) → spec.FirstBroken (program_of p.now) x
        → IsErrAnd result (λ e. (e ≡ TypeErr.Memory) ⊎ (e ≡ TypeErr.At x.place x.rule)) }
{
    match first_fault(alloc, p)? {
        Some(fault) => Err(TypeErr::At {
            place: fault.place,
            rule: fault.rule,
        }),
        None => {
            let text = typed_program(alloc, p)?;
            Ok(text)
        }
    }
}
