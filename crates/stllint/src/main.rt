// The program: the tool over the files of the system and the standard output.
#![tactic(auto)]

use sl_base::{RealFiles, StdSink};
use sl_tool::{Status, run_tool};
use std::alloc::AllocError;
use std::process::ExitCode;
use std::{env, io};

fn main(rt: HostRuntime) -> ExitCode {
    let status = run(rt).unwrap_or(Status::Memory);
    ExitCode::from(status.number())
}

// Runs the tool on the words of the command. Where memory runs out before the tool begins, nothing is written.
fn run(rt: HostRuntime) -> Result<Status, AllocError> {
    let words = words_of_command(&rt)?;
    let mut files = RealFiles::new(rt, rt.alloc(), &words)?;
    let mut out = StdSink::new(rt);
    Ok(run_tool(rt.alloc(), &words, &mut files, &mut out))
}

// The words behind the program's name. Where one of them is no text there are none, which is no command.
fn words_of_command(rt: &HostRuntime) -> Result<Vec<String>, AllocError> {
    match env::args(rt) {
        Ok(args) => args.skip(1).collect(rt.alloc()),
        Err(error) if error.kind() == io::ErrorKind::InvalidData => Ok(Vec::new(rt.alloc())),
        Err(_) => Err(AllocError),
    }
}
