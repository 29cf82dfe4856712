//! The phases of a text: its tokens, its program and its typed text. The first that stops tells why the text is refused.
ghost use Rattle.std.specs.Prelude.{◌≡◌, ◌⊎◌, List, ℕ, Some, MatchResult, IfOk, IfErr, IsErrAnd};
ghost use Rattle.sl_base.specs.declared.token.Token.{Token as TokenValue};
ghost use Rattle.sl_syntax.specs.Tree.{Program as ProgramValue};
ghost use Rattle.sl_syntax.specs.TreeView.{program_of};
ghost use Rattle.sl_syntax.specs.Typed as texts;
ghost use Rattle.sl_syntax.specs.TypedView.{typed_of};
ghost use Rattle.sl_model.specs.Reports.Refusals.{IsParsed, IsRefusal, IsTyped, Leaves};
ghost use Rattle.sl_tool.specs.Stopping.{line_of};

pub mod program;
pub mod stop;
pub mod tokens;
pub mod typing;

use program::program_of;
use sl_base::{Items, Token};
use sl_syntax::Program;
use sl_syntax::typed::Typed;
use std::alloc::Global;
use stop::Stop;
use tokens::tokens_of;
use typing::typed_of;

/// The tokens of a text, and the program that they write.
#[derive(Drop)]
pub struct Parsed {
    pub tokens: Items<Token>,
    pub program: Program,
}

/// The tokens and the program of a text.
///
/// `Stop::Memory` comes where memory runs out; any other stop exactly where the text is no program, with its line.
pub fn parsed_text(alloc: Global, text: &[u8]) -> Result<Parsed, Stop>
    // What is answered is so.
    ensures so { IfOk result (λ parsed. IsParsed text.now parsed.tokens (program_of parsed.program)) }
    ensures refused { IfErr result (λ stop. (file line : List ℕ) → line_of file stop ≡ Some line → IsRefusal file text.now line) }
    // What is so is answered, unless memory runs out.
    ensures only_program { (tokens : List TokenValue) (program : ProgramValue) → IsParsed text.now tokens program →
        MatchResult result
        (λ parsed. (parsed.tokens ≡ tokens) × (program_of parsed.program ≡ program))
        (λ stop. stop ≡ Stop.Memory) }
    ensures only_line { (file line : List ℕ) → IsRefusal file text.now line →
        IsErrAnd result (λ stop. (stop ≡ Stop.Memory) ⊎ (line_of file stop ≡ Some line)) }
{
    let tokens = tokens_of(alloc, text)?;
    let program = program_of(alloc, text, tokens.as_slice())?;
    Ok(Parsed { tokens, program })
}

/// The typed text of a text.
///
/// `Stop::Memory` comes where memory runs out; any other stop exactly where the text is no program or breaks a rule of
/// typing, with its line.
pub fn typed_text(alloc: Global, text: &[u8]) -> Result<Typed, Stop>
    // What is answered is so.
    ensures so { IfOk result (λ typed. (tokens : List TokenValue) × (program : ProgramValue) ×
        IsTyped text.now tokens program (typed_of typed)) }
    ensures refused { IfErr result (λ stop. (file line : List ℕ) → line_of file stop ≡ Some line → Leaves file text.now line) }
    // What is so is answered, unless memory runs out.
    ensures only_typed { (tokens : List TokenValue) (program : ProgramValue) (typed : texts.Typed) →
        IsTyped text.now tokens program typed →
        MatchResult result (λ answer. typed_of answer ≡ typed) (λ stop. stop ≡ Stop.Memory) }
    ensures only_line { (file line : List ℕ) → Leaves file text.now line →
        IsErrAnd result (λ stop. (stop ≡ Stop.Memory) ⊎ (line_of file stop ≡ Some line)) }
{
    let tokens = tokens_of(alloc, text)?;
    let program = program_of(alloc, text, tokens.as_slice())?;
    typed_of(alloc, &program)
}
