//! What is typed is ordered.
ghost use Rattle.std.specs.Prelude.{◌≡◌, true};
ghost use Rattle.sl_syntax.specs.Tree.{Program};
ghost use Rattle.sl_syntax.specs.Typed as texts;
ghost use Rattle.sl_typing.specs.Typing.{Typed};
ghost use Rattle.sl_model.specs.Typing.WellTyped.{has_no_alias, has_order};

/// In what is typed no variable is bound to two references of a call, and no order of effects that is open matters.
pub fn typed_order()
    ensures no_alias { (p : Program) (u : texts.Typed) → Typed p u → has_no_alias u ≡ true }
    ensures order { (p : Program) (u : texts.Typed) → Typed p u → has_order u ≡ true }
{}
