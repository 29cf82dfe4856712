//! What holds of typing.
ghost use Rattle.std.specs.Prelude.{◌≡◌, ◌⊎◌};
ghost use Rattle.sl_syntax.specs.Tree.{Program};
ghost use Rattle.sl_syntax.specs.Typed as texts;
ghost use Rattle.sl_typing.specs.declared.fault.Fault.{Fault};
ghost use Rattle.sl_typing.specs.Typing.{Typed, FirstBroken, typed_program};

/// Each program is typed, or one rule is the first that it breaks; no program is both.
pub fn typed_or_broken()
    ensures either { (p : Program) → Typed p (typed_program p) ⊎ ((x : Fault) × FirstBroken p x) }
    ensures not_both { (p : Program) (u : texts.Typed) (x : Fault) → Typed p u → FirstBroken p x → ⊥ }
{}

/// A program is typed as one text alone, and one rule is the first that it breaks, at one place.
pub fn one_answer()
    ensures text { (p : Program) (u : texts.Typed) (v : texts.Typed) → Typed p u → Typed p v → u ≡ v }
    ensures fault { (p : Program) (x : Fault) (y : Fault) → FirstBroken p x → FirstBroken p y → x ≡ y }
{}
