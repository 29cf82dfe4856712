//! The words of a text's tree.

use crate::case::SourceFile;
use crate::kinds::word::word_text;
use sl_base::Word;
use sl_syntax::write_tokens;
use sl_tool::parsed_text;
use std::alloc::{AllocError, Global};

/// The words of a text's tree, one a line.
pub fn answer(alloc: Global, file: &SourceFile) -> Result<Vec<u8>, AllocError> {
    match parsed_text(alloc, file.bytes) {
        Ok(parsed) => lines_of(alloc, write_tokens(alloc, &parsed.program)?.as_slice()),
        Err(stop) => stop.line(alloc, file.name)?.as_slice().to_vec(alloc),
    }
}

fn lines_of(alloc: Global, words: &[Word]) -> Result<Vec<u8>, AllocError> {
    let mut all = Vec::new(alloc);
    for word in words {
        all.extend_from_slice(word_text(alloc, word)?.as_bytes())?;
        all.extend_from_slice(b"\n")?;
    }
    Ok(all)
}
