//! The body of `main`, and its statements.
ghost use Rattle.std.specs.Prelude.{◌≡◌, ◌↔◌, [], ◌∷◌, ◌++◌, List, IsTrue, IfOk, MatchOption, drop, length};
ghost use Rattle.sl_base.specs.declared.mark.Mark.TheVariants.{RightBrace};
ghost use Rattle.sl_base.specs.declared.word.Word.{Word};
ghost use Rattle.sl_base.specs.declared.word.Word.TheVariants.{Mark as MarkWord};
ghost use Rattle.sl_syntax.specs.Begins.{Stops};
ghost use Rattle.sl_syntax.specs.Begins.{words_in};
ghost use Rattle.sl_tool.specs.Subset.{head_words, no_scope};
ghost use Rattle.sl_tool.specs.Means.Reading.{IsBody, IsRead, MatchRead};

use crate::reading::read::Read;
use crate::reading::reader::Reader;
use crate::reading::stopping::{stop_in_body, stop_without_room};
use crate::reading::tokens::{is_key, is_mark, is_name};
use sl_base::limits::STATEMENTS;
use sl_base::{Mark, Token};
use std::alloc::{AllocError, Global};

/// How many tokens `int main() {` has.
pub const HEAD_TOKENS: usize = 5;

/// The tokens behind `int main() {`.
pub fn body_of(tokens: &[Token]) -> Option<&[Token]>
    ensures { MatchOption result
        ((words : List Word) → words_in tokens.now ≡ head_words ++ words → ⊥)
        (λ body. (body.now ≡ drop (length head_words) tokens.now)
        × (words_in tokens.now ≡ head_words ++ words_in body.now)) }
{
    match tokens {
        [int, main, open, close, brace, body @ ..]
            if is_key(int, b"int")
                && is_name(main, b"main")
                && is_mark(open, Mark::LeftParenthesis)
                && is_mark(close, Mark::RightParenthesis)
                && is_mark(brace, Mark::LeftBrace) => { Some(body) }
        _ => None,
    }
}

/// Reads the tokens of the body, up to its closing brace.
pub fn read_body(alloc: Global, body: &[Token]) -> Result<Read<Reader>, AllocError>
    ensures { IfOk result (λ read.
        MatchRead read (IsRead body.now) (Stops (IsBody no_scope STATEMENTS) (words_in body.now))) }
{
    let mut reader = Reader::new(alloc);
    let mut rest = body;
    let mut room = STATEMENTS;
    while !is_end(rest) {
        if room == 0 {
            return Ok(Read::Stops(body.len() - rest.len() + stop_without_room(rest)));
        }
        let Some(taken) = reader.take_item(rest)? else {
            return Ok(Read::Stops(body.len() - rest.len() + stop_in_body(&reader, rest)));
        };
        rest = &rest[taken..];
        room -= 1;
    }
    Ok(Read::Whole(reader))
}

// Whether the tokens are the closing brace alone.
fn is_end(tokens: &[Token]) -> bool
    ensures { IsTrue result ↔ (words_in tokens.now ≡ MarkWord RightBrace ∷ []) }
{
    match tokens {
        [brace] => is_mark(brace, Mark::RightBrace),
        _ => false,
    }
}
