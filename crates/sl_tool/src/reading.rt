//! Reads the tokens of a text of the subset that is checked so far into numbers.
ghost use Rattle.std.specs.Prelude.{IfOk};
ghost use Rattle.sl_syntax.specs.Begins.{Stops, words_in};
ghost use Rattle.sl_tool.specs.Subset.{IsInSubset, ReadsAs};
ghost use Rattle.sl_tool.specs.Means.Reading.{MatchRead};

pub mod body;
pub mod items;
pub mod names;
pub mod read;
pub mod reader;
pub mod slots;
pub mod stopping;
pub mod tokens;

use body::{HEAD_TOKENS, body_of, read_body};
use read::Read;
use sl_base::Token;
use sl_syntax::subset::Text;
use std::alloc::{AllocError, Global};
use stopping::stop_in_head;
use tokens::place_in;

/// The text in numbers, where the tokens are a text of the subset; otherwise the number of the token at which they
/// stop.
pub fn read_text(alloc: Global, tokens: &[Token]) -> Result<Read<Text>, AllocError>
    ensures { IfOk result (λ read. MatchRead read (ReadsAs tokens.now) (Stops IsInSubset (words_in tokens.now))) }
{
    let Some(body) = body_of(tokens) else {
        return Ok(Read::Stops(stop_in_head(alloc, tokens)));
    };
    match read_body(alloc, body)? {
        Read::Whole(reader) => {
            let close = place_in(tokens, tokens.len() - 1);
            Ok(Read::Whole(reader.finish(close)?))
        }
        Read::Stops(k) => Ok(Read::Stops(HEAD_TOKENS + k)),
    }
}
