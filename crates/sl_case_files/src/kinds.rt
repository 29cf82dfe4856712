//! The kinds of cases: what each asks, as the bytes of an answer.

pub mod command;
mod grammar;
mod groups;
mod refusal;
mod tokens;
mod tree;
mod word;

use crate::case::{SourceFile, TextKind};
use std::alloc::{AllocError, Global};
pub use word::word_text;

/// What is asked of a text. Where it has none of that, it is the line that refuses the text.
pub fn text_answer(
    alloc: Global,
    kind: TextKind,
    file: &SourceFile,
) -> Result<Vec<u8>, AllocError> {
    match kind {
        TextKind::Tokens => tokens::answer(alloc, file),
        TextKind::Tree => tree::answer(alloc, file),
        TextKind::Groups => groups::answer(alloc, file),
        TextKind::Grammar => grammar::answer(alloc, file),
        TextKind::Refusal => refusal::answer(alloc, file),
    }
}
