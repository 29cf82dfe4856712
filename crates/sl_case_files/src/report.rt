//! Runs the cases of a file, and reports those that differ.

use crate::case::{Asked, Case};
use crate::case_file::{CaseFileErr, cases_in};
use crate::kinds::command::{ended_with, run_command};
use crate::kinds::text_answer;
use std::alloc::{AllocError, Global};

/// How many cases a file has, how many of them differ, and what is printed of those.
#[derive(Drop)]
pub struct Report {
    pub cases: usize,
    pub differ: usize,
    pub text: Vec<u8>,
}

/// The report on the cases of a file.
pub fn report_on(alloc: Global, file: &str, text: &[u8]) -> Result<Report, CaseFileErr> {
    let cases = cases_in(alloc, text)?;
    let mut report = Report {
        cases: cases.len(),
        differ: 0,
        text: Vec::new(alloc),
    };
    for case in &cases {
        report.add(alloc, file, case)?;
    }
    Ok(report)
}

impl Report {
    // Reports a case if it differs.
    fn add(&mut self, alloc: Global, file: &str, case: &Case) -> Result<(), AllocError> {
        let due = due_of(alloc, &case.asked)?;
        let came = answer_to(alloc, &case.asked)?;
        if due.as_slice() == came.as_slice() {
            return Ok(());
        }
        self.differ = self.differ.saturating_add(1);
        let line = case.line;
        let name = case.name;
        let head = format!(in alloc; "{file}:{line}: {name}\ndue:\n")?;
        self.text.extend_from_slice(head.as_bytes())?;
        self.text.extend_from_slice(&due)?;
        self.text.extend_from_slice(b"came:\n")?;
        self.text.extend_from_slice(&came)
    }
}

// The answer that is due.
fn due_of(alloc: Global, asked: &Asked) -> Result<Vec<u8>, AllocError> {
    match asked {
        Asked::Command { status, out, .. } => ended_with(alloc, *status, out),
        Asked::Text { due, .. } => due.to_vec(alloc),
    }
}

// The answer that comes.
fn answer_to(alloc: Global, asked: &Asked) -> Result<Vec<u8>, AllocError> {
    match asked {
        Asked::Command { words, files, .. } => run_command(alloc, words, files),
        Asked::Text { kind, file, .. } => text_answer(alloc, *kind, file),
    }
}
