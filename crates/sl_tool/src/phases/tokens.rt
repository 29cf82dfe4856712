//! The first phase: the tokens of a text.
ghost use Rattle.std.specs.Prelude.{◌≡◌, ◌≤◌, List, ℕ, length, Some, IfSome, IfOk, IfErr};
ghost use Rattle.sl_base.specs.Pieces.{TokenRule};
ghost use Rattle.sl_base.specs.Tokens.{Tokens, TokenFault};
ghost use Rattle.sl_base.specs.declared.limits.TheConstants.{TEXT_BYTES};
ghost use Rattle.sl_lexer.specs.Faults.{fault_of};
ghost use Rattle.sl_model.specs.Reports.Refusals.{IsRefusal, rule_words};
ghost use Rattle.sl_tool.specs.Stopping.{line_of};

use crate::phases::stop::Stop;
use sl_base::limits::TEXT_BYTES;
use sl_base::{Items, Token, place_of};
use sl_lexer::{LexErr, lex};
use std::alloc::Global;

/// The tokens of a text that isn't too long.
pub fn tokens_of(alloc: Global, text: &[u8]) -> Result<Items<Token>, Stop>
    ensures short { IfOk result (λ tokens. length text.now ≤ TEXT_BYTES) }
    ensures cut { IfOk result (Tokens text.now) }
    ensures refused { IfErr result (λ stop. (file line : List ℕ) → line_of file stop ≡ Some line → IsRefusal file text.now line) }
{
    if text.len() > TEXT_BYTES {
        return Err(Stop::TooLong);
    }
    match lex(alloc, text) {
        Ok(tokens) => Ok(tokens),
        Err(error) => Err(stop_at_fault(text, error)),
    }
}

// Why a text with this error of the lexer is refused.
fn stop_at_fault(text: &[u8], error: LexErr) -> Stop
    requires short { length text.now ≤ TEXT_BYTES }
    requires is_fault { (rule : TokenRule) (at : ℕ) → fault_of error ≡ Some (rule, at) → TokenFault text.now rule at }
    ensures { (file line : List ℕ) → line_of file result ≡ Some line → IsRefusal file text.now line }
{
    match fault_in(error) {
        Some((words, offset)) => Stop::Refused {
            place: place_of(text, offset as usize),
            words,
        },
        None => Stop::Memory,
    }
}

// The words for an error of the lexer, and its offset.
fn fault_in(error: LexErr) -> Option<(&'static str, u32)>
    ensures { IfSome result (λ told.
        (rule : TokenRule) × (fault_of error ≡ Some (rule, told.1)) × (told.0.now ≡ rule_words rule)) }
{
    match error {
        LexErr::Memory => None,
        LexErr::BadByte { offset } => Some(("bad byte", offset)),
        LexErr::BadNumber { offset } => Some(("bad number", offset)),
        LexErr::OpenComment { offset } => Some(("open comment", offset)),
        LexErr::OpenText { offset } => Some(("open text", offset)),
        LexErr::BadDirective { offset } => Some(("bad directive", offset)),
    }
}
