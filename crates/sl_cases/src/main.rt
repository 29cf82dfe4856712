//! Cases as data: runs each case of the files that its words name, and prints those whose answer isn't the one that is
//! due.
#![tactic(auto)]

use anyhow::{Context, Result};
use sl_case_files::{CaseFileErr, Report, report_on};
use std::alloc::AllocError;
use std::io::Write;
use std::process::ExitCode;
use std::rt::{Env, Files};
use std::{env, fs, io};

fn main(rt: HostRuntime) -> ExitCode {
    match run(&rt) {
        Ok(0) => ExitCode::SUCCESS,
        Ok(_) => ExitCode::from(1),
        Err(error) => {
            let _ = eprintln!(rt; "{error:#}");
            ExitCode::from(2)
        }
    }
}

// Runs the cases of all files, and answers how many differ.
fn run<R: Env + Files + AllocGlobal + Print>(rt: &R) -> Result<usize> {
    let mut cases: usize = 0;
    let mut differ: usize = 0;
    for file in env::args(rt)?.skip(1) {
        let report = report_of_file(rt, &file)?;
        io::writer(rt).write_all(&report.text)?;
        cases = cases.saturating_add(report.cases);
        differ = differ.saturating_add(report.differ);
    }
    println!(rt; "{cases} cases, {differ} differ")?;
    Ok(differ)
}

// The report on the cases of a file.
fn report_of_file<R: Files + AllocGlobal>(rt: &R, file: &str) -> Result<Report> {
    let bytes = fs::read(rt, file).context(format_args!("reading {file}"))?;
    match report_on(rt.alloc(), file, &bytes) {
        Ok(report) => Ok(report),
        Err(CaseFileErr::Memory) => Err(AllocError.into()),
        Err(CaseFileErr::Wrong { line, wrong }) => Err(anyhow::anyhow!("{file}:{line}: {wrong}")),
    }
}
