//! What the tool answers to a command, over files and a sink in memory.

use crate::case::SourceFile;
use sl_base::{MemFiles, MemSink};
use sl_tool::run_tool;
use std::alloc::{AllocError, Global};

/// Bytes that a read gives at most, and that a write takes at most: few, so that both go on in parts.
const READ_BYTES: usize = 7;

const WRITE_BYTES: usize = 10;

/// Bytes that the sink takes in all: more than any answer has.
const ROOM: usize = 1_048_576;

/// The answer to these words.
pub fn run_command(
    alloc: Global,
    words: &str,
    files: &[SourceFile],
) -> Result<Vec<u8>, AllocError> {
    let words = words_in(alloc, words)?;
    let mut files = MemFiles::new(in_memory(alloc, files)?, READ_BYTES, Vec::new(alloc));
    let mut out = MemSink::new(alloc, WRITE_BYTES, ROOM, Vec::new(alloc))?;
    let status = run_tool(alloc, &words, &mut files, &mut out);
    ended_with(alloc, status.number(), out.bytes())
}

/// The status and what was written, as one text.
pub fn ended_with(alloc: Global, status: u8, out: &[u8]) -> Result<Vec<u8>, AllocError> {
    let mut text = format!(in alloc; "status {status}\n")?.into_bytes();
    text.extend_from_slice(out)?;
    Ok(text)
}

fn words_in(alloc: Global, words: &str) -> Result<Vec<String>, AllocError> {
    let mut all = Vec::new(alloc);
    for word in words.split_whitespace() {
        all.push(String::from_str(alloc, word)?)?;
    }
    Ok(all)
}

fn in_memory(alloc: Global, files: &[SourceFile]) -> Result<Vec<(String, Vec<u8>)>, AllocError> {
    let mut all = Vec::new(alloc);
    for file in files {
        let name = String::from_str(alloc, file.name)?;
        all.push((name, file.bytes.to_vec(alloc)?))?;
    }
    Ok(all)
}
