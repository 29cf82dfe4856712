//! How the operators and the statements of a text group.

mod expression;
mod operator;
mod statement;

use crate::case::SourceFile;
use sl_syntax::{Function, Item};
use sl_tool::parsed_text;
use statement::item_text;
use std::alloc::{AllocError, Global};

/// A line for each item of a text's functions.
pub fn answer(alloc: Global, file: &SourceFile) -> Result<Vec<u8>, AllocError> {
    match parsed_text(alloc, file.bytes) {
        Ok(parsed) => lines_of(alloc, &parsed.program.functions),
        Err(stop) => stop.line(alloc, file.name)?.as_slice().to_vec(alloc),
    }
}

fn lines_of(alloc: Global, functions: &[Function]) -> Result<Vec<u8>, AllocError> {
    let mut all = Vec::new(alloc);
    for function in functions {
        push_lines(alloc, &mut all, &function.body.items)?;
    }
    Ok(all)
}

fn push_lines(alloc: Global, all: &mut Vec<u8>, items: &[Item]) -> Result<(), AllocError> {
    for item in items {
        all.extend_from_slice(item_text(alloc, item)?.as_bytes())?;
        all.extend_from_slice(b"\n")?;
    }
    Ok(())
}
