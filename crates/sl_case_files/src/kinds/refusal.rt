//! The line that refuses a text.

use crate::case::SourceFile;
use sl_tool::typed_text;
use std::alloc::{AllocError, Global};

/// The line that refuses a text by its tokens, the grammar or typing, or nothing.
pub fn answer(alloc: Global, file: &SourceFile) -> Result<Vec<u8>, AllocError> {
    match typed_text(alloc, file.bytes) {
        Ok(_) => Ok(Vec::new(alloc)),
        Err(stop) => stop.line(alloc, file.name)?.as_slice().to_vec(alloc),
    }
}
