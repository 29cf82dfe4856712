//! What a typed text keeps.
ghost use Rattle.std.specs.Prelude.{◌≡◌, true};
ghost use Rattle.sl_model.specs.Typing.WellTyped.{has_constants, has_few, has_main, has_types};
ghost use Rattle.sl_syntax.specs.Tree.{Program};
ghost use Rattle.sl_syntax.specs.Typed as texts;
ghost use Rattle.sl_typing.specs.Typing.{Typed};
ghost use Rattle.sl_well_typed.specs.Small.{has_small_literals};

/// The typed text of a program, whose literals are no greater than a token may be, has the types that its nodes need: each variable, function
/// and row is there and of the form, type and constness that is asked for. It has `main`, its functions and sites are no more than there may
/// be, and its constants ascend and hold each literal and its two neighbours. These are four of the eleven parts of `WellTyped`.
pub fn typed_texts_keep_their_types()
    ensures types { (p : Program) (u : texts.Typed) → Typed p u → has_small_literals p ≡ true → has_types u ≡ true }
    ensures main { (p : Program) (u : texts.Typed) → Typed p u → has_main u ≡ true }
    ensures few { (p : Program) (u : texts.Typed) → Typed p u → has_few u ≡ true }
    ensures constants { (p : Program) (u : texts.Typed) → Typed p u → has_constants u ≡ true }
{}
