//! What is typed is well typed, scoped, and has a meaning.
ghost use Rattle.std.specs.Prelude.{ℕ, List};
ghost use Rattle.sl_base.specs.declared.token.Token.{Token as TokenValue};
ghost use Rattle.sl_model.specs.Reports.Covers.{HasMeaning};
ghost use Rattle.sl_model.specs.Reports.Refusals.{IsTyped};
ghost use Rattle.sl_model.specs.Typing.Scoped.{IsScoped};
ghost use Rattle.sl_model.specs.Typing.Shapes.{lib_makes, lib_shape};
ghost use Rattle.sl_model.specs.Typing.WellTyped.{WellTyped};
ghost use Rattle.sl_syntax.specs.Tree.{Program};
ghost use Rattle.sl_syntax.specs.Typed as texts;

/// What a text is typed as is well typed: each variable that it uses is in scope, and each call that a run of it makes
/// has a meaning.
pub fn typed_texts()
    ensures well_typed { (text : List ℕ) (tokens : List TokenValue) (p : Program) (u : texts.Typed) → IsTyped text tokens p u →
        WellTyped u }
    ensures scoped { (text : List ℕ) (tokens : List TokenValue) (p : Program) (u : texts.Typed) → IsTyped text tokens p u →
        IsScoped lib_shape lib_makes u }
    ensures meaning { (text : List ℕ) (tokens : List TokenValue) (p : Program) (u : texts.Typed) → IsTyped text tokens p u →
        HasMeaning u }
{}
