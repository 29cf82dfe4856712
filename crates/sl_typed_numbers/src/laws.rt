//! What is typed has its numbers right.
ghost use Rattle.std.specs.Prelude.{◌≡◌, true};
ghost use Rattle.sl_model.specs.Typing.WellTyped.{has_few, has_names, has_numbers, has_sites, has_variables};
ghost use Rattle.sl_syntax.specs.Tree.{Program};
ghost use Rattle.sl_syntax.specs.Typed as texts;
ghost use Rattle.sl_typing.specs.Typing.{Typed};

/// What a program that breaks no rule is typed as has no more functions and sites than there may be, tells only names
/// that are there, lists in each function the variables that it declares, and has a site where something can be
/// invalidated, and nowhere else. The sites of a function are numbered in the order of the text, and so are its loops.
/// These are five of the eleven parts of `WellTyped`.
pub fn typed_numbers()
    ensures few { (p : Program) (u : texts.Typed) → Typed p u → has_few u ≡ true }
    ensures names { (p : Program) (u : texts.Typed) → Typed p u → has_names u ≡ true }
    ensures variables { (p : Program) (u : texts.Typed) → Typed p u → has_variables u ≡ true }
    ensures sites { (p : Program) (u : texts.Typed) → Typed p u → has_sites u ≡ true }
    ensures numbers { (p : Program) (u : texts.Typed) → Typed p u → has_numbers u ≡ true }
{}
