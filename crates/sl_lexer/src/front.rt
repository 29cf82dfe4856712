ghost use Rattle.std.specs.Prelude.{◌≡◌, ◌+◌, ◌<◌, ◌≤◌, false, length};
ghost use Rattle.sl_base.specs.declared.limits.TheConstants.{TEXT_BYTES};
ghost use Rattle.sl_lexer.specs.Means.Answers.{answer_of, IsAnswer};
ghost use Rattle.sl_lexer.specs.Means.Front.{front_in, front_of};
ghost use Rattle.sl_lexer.specs.declared.byte.First.TheVariants.{Other};

use crate::LexErr;
use crate::byte::{First, first_of};
use crate::comment::{comment_front, comment_len};
use crate::directive::directive_front;
use crate::mark::mark_front;
use crate::name::letter_front;
use crate::number::number_front;
use crate::text::{character_front, text_front};
use sl_base::Word;
use std::alloc::Global;

/// The piece that begins a rest of the text: what it says, if it is a token, and how many bytes it has.
#[derive(Drop)]
pub struct Front {
    pub word: Option<Word>,
    pub len: usize,
}

/// The comment or the mark at the front of the rest.
fn other_front(rest: &[u8], from: usize) -> Result<Front, LexErr>
    requires some { 0 < length rest.now }
    requires short { from + length rest.now ≤ TEXT_BYTES }
    ensures { result ≡ answer_of from rest.now (front_in Other false rest.now) }
{
    match comment_len(rest) {
        Some(len) => comment_front(rest, from, len),
        None => mark_front(rest, from),
    }
}

/// The piece that begins the rest of a text, which stands at an offset; `opens` says whether what stands before
/// lets a directive begin here.
pub fn front_of(alloc: Global, rest: &[u8], from: usize, opens: bool) -> Result<Front, LexErr>
    requires some { 0 < length rest.now }
    requires short { from + length rest.now ≤ TEXT_BYTES }
    ensures { IsAnswer from rest.now (front_of opens rest.now) result }
{
    match first_of(rest[0]) {
        First::Blank => Ok(Front { word: None, len: 1 }),
        First::Letter => letter_front(rest, from),
        First::Digit => number_front(rest, from),
        First::Quote => text_front(alloc, rest, from),
        First::Apostrophe => character_front(alloc, rest, from),
        First::Hash => directive_front(rest, from, opens),
        First::Other => other_front(rest, from),
    }
}
