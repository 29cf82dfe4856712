//! The tokens of a text.

use crate::case::SourceFile;
use crate::kinds::word::word_text;
use sl_base::Token;
use sl_base::limits::TEXT_BYTES;
use sl_lexer::lex;
use std::alloc::{AllocError, Global};

/// The tokens of a text, one a line.
pub fn answer(alloc: Global, file: &SourceFile) -> Result<Vec<u8>, AllocError> {
    let text = file.bytes;
    if text.len() > TEXT_BYTES {
        return b"too long\n".to_vec(alloc);
    }
    match lex(alloc, text) {
        Ok(tokens) => lines_of(alloc, tokens.as_slice()),
        Err(error) => Ok(format!(in alloc; "{error}\n")?.into_bytes()),
    }
}

// A line for each token.
fn lines_of(alloc: Global, tokens: &[Token]) -> Result<Vec<u8>, AllocError> {
    let mut all = Vec::new(alloc);
    for token in tokens {
        all.extend_from_slice(line_of(alloc, token)?.as_bytes())?;
    }
    Ok(all)
}

// A token's word, its offset and its place.
fn line_of(alloc: Global, token: &Token) -> Result<String, AllocError> {
    let word = word_text(alloc, &token.word)?;
    let offset = token.offset;
    let line = token.place.line;
    let col = token.place.col;
    format!(in alloc; "{word} {offset} {line}:{col}\n")
}
