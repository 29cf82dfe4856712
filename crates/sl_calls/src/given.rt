//! What tests give to calls.

use sl_base::MemFiles;
use std::alloc::{AllocError, Global};

/// The words of a command.
pub fn words_of(alloc: Global, words: &[&str]) -> Result<Vec<String>, AllocError> {
    let mut all = Vec::new(alloc);
    for word in words {
        all.push(String::from_str(alloc, word)?)?;
    }
    Ok(all)
}

/// A file in memory, of whose reads each gives at most `chunk` bytes and those fail whose numbers are in `fails`.
pub fn file_in_memory(
    alloc: Global,
    name: &str,
    text: &[u8],
    chunk: usize,
    fails: &[u64],
) -> Result<MemFiles, AllocError> {
    let mut all = Vec::new(alloc);
    let name = String::from_str(alloc, name)?;
    let text = text.to_vec(alloc)?;
    all.push((name, text))?;
    Ok(MemFiles::new(all, chunk.max(1), fails.to_vec(alloc)?))
}
