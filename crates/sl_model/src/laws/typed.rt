//! What holds of each well typed text.
ghost use Rattle.std.specs.Prelude.{ℕ, ℤ, List};
ghost use Rattle.sl_syntax.specs.Typed.{Typed};
ghost use Rattle.sl_model.specs.Reports.Covers.{HasMeaning};
ghost use Rattle.sl_model.specs.Runs.Good.{IsGood};
ghost use Rattle.sl_model.specs.Runs.Run.{end_state, main_out};
ghost use Rattle.sl_model.specs.Typing.Scoped.{IsScoped};
ghost use Rattle.sl_model.specs.Typing.Shapes.{lib_makes, lib_shape};
ghost use Rattle.sl_model.specs.Typing.WellTyped.{WellTyped};

/// In a well typed text each variable that is used is in scope, and each operand has the shape that is asked for. So
/// each of its runs ends in a good state.
pub fn well_typed_texts_are_scoped()
    ensures scoped { (p : Typed) → WellTyped p → IsScoped lib_shape lib_makes p }
    ensures good { (p : Typed) → WellTyped p → (input : List ℤ) (picks : List ℕ) (steps : ℕ) →
        IsGood (end_state (main_out p input picks steps)) }
{}

/// No run of a well typed text comes to what has no meaning: each call of the library that it makes is one that the
/// library has, with operands that fit it, and each reference is bound to an element that is there.
pub fn well_typed_texts_have_meaning()
    ensures { (p : Typed) → WellTyped p → HasMeaning p }
{}
