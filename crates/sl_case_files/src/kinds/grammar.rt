//! The line that refuses a text that is no program.

use crate::case::SourceFile;
use sl_tool::parsed_text;
use std::alloc::{AllocError, Global};

/// The line that refuses a text by its tokens or the grammar, or nothing.
pub fn answer(alloc: Global, file: &SourceFile) -> Result<Vec<u8>, AllocError> {
    match parsed_text(alloc, file.bytes) {
        Ok(_) => Ok(Vec::new(alloc)),
        Err(stop) => stop.line(alloc, file.name)?.as_slice().to_vec(alloc),
    }
}
