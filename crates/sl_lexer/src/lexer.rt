ghost use Rattle.std.specs.Prelude.{◌≡◌, ◌≤◌, ◌⊎◌, List, ℕ, length, Some, IfOk, IfErr, IsErrAnd};
ghost use Rattle.sl_base.specs.declared.limits.TheConstants.{TEXT_BYTES};
ghost use Rattle.sl_base.specs.declared.token.Token.{Token as TokenValue};
ghost use Rattle.sl_base.specs.Pieces.{TokenRule};
ghost use Rattle.sl_base.specs.Tokens.{Tokens, TokenFault};
ghost use Rattle.sl_lexer.specs.Faults.{fault_of};

use crate::LexErr;
use crate::directive::opens_directive;
use crate::front::{Front, front_of};
use crate::line::blank_line_after;
use sl_base::{Items, Place, Token};
use std::alloc::Global;

/// The tokens of a text of at most 1,048,576 bytes, by longest match.
///
/// `LexErr::Memory` comes where memory runs out; each other error exactly where its rule is the first that
/// is broken, at that offset.
pub fn lex(alloc: Global, text: &[u8]) -> Result<Items<Token>, LexErr>
    requires { length text.now ≤ TEXT_BYTES }
    // What is answered is so.
    ensures tokens { IfOk result (Tokens text.now) }
    ensures fault { IfErr result (λ e.
        (rule : TokenRule) (at : ℕ) → fault_of e ≡ Some (rule, at) → TokenFault text.now rule at) }
    // What is so is answered, unless memory runs out.
    ensures only_tokens { (tokens : List TokenValue) → Tokens text.now tokens →
        (result ≡ Ok tokens) ⊎ (result ≡ Err LexErr.Memory) }
    ensures only_fault { (rule : TokenRule) (at : ℕ) → TokenFault text.now rule at →
        IsErrAnd result (λ e. (e ≡ LexErr.Memory) ⊎ (fault_of e ≡ Some (rule, at))) }
{
    // The text is cut up to `done`, which stands at `place`; `blank_line` says whether its line is blank so far.
    let mut tokens = Items::new(alloc);
    let mut place = Place::FIRST;
    let mut blank_line = true;
    let mut done = 0;
    while done < text.len() {
        let opens = opens_directive(tokens.len(), blank_line);
        let Front { word, len } = front_of(alloc, &text[done..], done, opens)?;
        if let Some(word) = word {
            tokens.push(Token {
                word,
                offset: done as u32,
                place,
            })?;
        }
        let end = done + len;
        place = place.after(&text[done..end]);
        blank_line = blank_line_after(blank_line, &text[done..end]);
        done = end;
    }
    Ok(tokens)
}
