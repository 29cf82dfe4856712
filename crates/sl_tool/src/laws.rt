//! Laws of answers that a reviewer would ask for.
ghost use Rattle.std.specs.Prelude.{◌≡◌, ◌≤◌, ◌⊎◌, List, ℕ, length};
ghost use Rattle.sl_base.specs.declared.limits.TheConstants.{TEXT_BYTES};
ghost use Rattle.sl_base.specs.declared.token.Token.{Token as TokenValue};
ghost use Rattle.sl_model.specs.Reports.Covers.{Warning};
ghost use Rattle.sl_model.specs.Reports.Refusals.{IsTyped, Leaves};
ghost use Rattle.sl_model.specs.Typing.Scoped.{IsScoped};
ghost use Rattle.sl_model.specs.Typing.Shapes.{lib_makes, lib_shape};
ghost use Rattle.sl_model.specs.Reports.Texts.{report_text};
ghost use Rattle.sl_syntax.specs.SubsetView.{typed_of};
ghost use Rattle.sl_syntax.specs.Tree.{Program};
ghost use Rattle.sl_syntax.specs.Typed as texts;
ghost use Rattle.sl_syntax.specs.declared.subset.Text.{Text};
ghost use Rattle.sl_tool.specs.Answers.{AnswerTo, IsReport, status_of};
ghost use Rattle.sl_tool.specs.Subset.{IsBuilt, IsOfText};
ghost use Rattle.sl_tool.specs.declared.status.Status.{Status};

/// A text that is refused has one line that refuses it, and no other answer.
pub fn one_refusal()
    ensures { (file text line bytes : List ℕ) (status : Status) →
        AnswerTo file text Status.Refused line → AnswerTo file text status bytes →
        (status ≡ Status.Refused) × (bytes ≡ line) }
{}

/// The answer to a text of the subset that isn't too long is a report on it.
pub fn each_text_is_reported()
    ensures { (file text bytes : List ℕ) (status : Status) (p : Text) →
        length text ≤ TEXT_BYTES → IsBuilt text p → AnswerTo file text status bytes →
        (r : List Warning) × IsReport p r × (status ≡ status_of r) × (bytes ≡ report_text file p.sites r) }
{}

/// In a text of the subset each variable that is used is in scope.
pub fn each_text_is_scoped()
    ensures { (p : Text) → IsOfText p → IsScoped lib_shape lib_makes (typed_of p) }
{}

/// A text has one line at most that refuses it, or one typed text at most, and never both.
pub fn one_typing()
    ensures one_line { (file text line other : List ℕ) → Leaves file text line → Leaves file text other → line ≡ other }
    ensures one_typed { (text : List ℕ) (tokens others : List TokenValue) (p q : Program) (u v : texts.Typed) →
        IsTyped text tokens p u → IsTyped text others q v → u ≡ v }
    ensures never_both { (file text line : List ℕ) (tokens : List TokenValue) (p : Program) (u : texts.Typed) →
        IsTyped text tokens p u → Leaves file text line → ⊥ }
{}

/// Each text, whatever its bytes are, has a typed text or a line that refuses it.
pub fn typed_or_refused()
    ensures { (file text : List ℕ) →
        ((tokens : List TokenValue) × (p : Program) × (u : texts.Typed) × IsTyped text tokens p u) ⊎
        ((line : List ℕ) × Leaves file text line) }
{}
