//! The top call.
ghost use Rattle.std.specs.Prelude.{◌≡◌, IfOk};
ghost use Rattle.sl_tool.specs.Command.{command_of, words_of};
ghost use Rattle.sl_tool.specs.Answers.{AnswerTo};
ghost use Rattle.sl_tool.specs.Outcome.{Checked, Listed, Outcome, Written};
ghost use Rattle.sl_base.specs.Outside.{OthersKept};

use crate::checking::check;
use crate::command::{Command, command_in};
use crate::phases::parsed_text;
use crate::status::Status;
use sl_base::limits::TEXT_BYTES;
use sl_base::{Files, Items, ReadErr, Sink, read_all, write_all};
use sl_specs::print_rows;
use std::alloc::{AllocError, Global};

const USAGE: &str = "usage: stllint check FILE | run FILE INPUT SCHEDULE STEPS | specs | self N\n";

/// Runs the tool on the words behind the program's name.
///
/// With `check FILE` it reads FILE, as far as 1,048,577 bytes, and writes the answer to its text: a report on it, or
/// that it is refused. `ReadFault` comes only where a read of FILE failed in this call, which is then written. With
/// `specs` alone it writes the tables of the library, and `Passed` comes. `Usage` comes exactly where the words are
/// anything else, and no memory is taken then. `WriteFault` comes in place of any of these, only where a write failed;
/// then the bytes that the sink took are a first part of the answer. `Memory` comes where memory ran out, before the
/// first write, and no read failed then. No file is read but FILE. The answer is written at once, and no memory is
/// taken behind a failed read or behind the first write.
pub fn run_tool<F: Files, K: Sink>(
    alloc: Global,
    words: &[String],
    files: &mut F,
    out: &mut K,
) -> Status
    ensures { Outcome (command_of (words_of words.now)) result
        (record { left = F.left files.old; faults = F.faults files.old; blamed = F.blamed files.old })
        (record { left = F.left files.new; faults = F.faults files.new; blamed = F.blamed files.new })
        (record { taken = K.taken out.old; faults = K.faults out.old })
        (record { taken = K.taken out.new; faults = K.faults out.new }) }
{
    match command_in(words) {
        Command::Check(file) => check_file(alloc, file, files, out),
        Command::Specs => list_rows(alloc, out),
        Command::Unknown => deliver(out, Status::Usage, USAGE.as_bytes()),
    }
}

// Reads a file and writes the answer to its text.
fn check_file<F: Files, K: Sink>(alloc: Global, file: &str, files: &mut F, out: &mut K) -> Status
    ensures others { OthersKept (F.left files.old) (F.left files.new) file.now }
    ensures checked { Checked file.now result
        (record { left = F.left files.old; faults = F.faults files.old; blamed = F.blamed files.old })
        (record { left = F.left files.new; faults = F.faults files.new; blamed = F.blamed files.new })
        (record { taken = K.taken out.old; faults = K.faults out.old })
        (record { taken = K.taken out.new; faults = K.faults out.new }) }
{
    let Ok(fault) = format!(in alloc; "read fault: {file}\n") else {
        return Status::Memory;
    };
    let text = match read_all(alloc, files, file, TEXT_BYTES) {
        Ok(text) => text,
        Err(ReadErr::Memory) => return Status::Memory,
        Err(ReadErr::Failed) => return deliver(out, Status::ReadFault, fault.as_bytes()),
    };
    match answer(alloc, file, &text) {
        Ok((status, text)) => deliver(out, status, text.as_slice()),
        Err(AllocError) => Status::Memory,
    }
}

// Writes the tables of the library.
fn list_rows<K: Sink>(alloc: Global, out: &mut K) -> Status
    ensures { Listed result
        (record { taken = K.taken out.old; faults = K.faults out.old })
        (record { taken = K.taken out.new; faults = K.faults out.new }) }
{
    match print_rows(alloc) {
        Ok(text) => deliver(out, Status::Passed, text.as_slice()),
        Err(AllocError) => Status::Memory,
    }
}

// The answer to a text.
fn answer(alloc: Global, file: &str, text: &[u8]) -> Result<(Status, Items<u8>), AllocError>
    ensures { IfOk result (λ a. AnswerTo file.now text.now a.0 a.1) }
{
    match parsed_text(alloc, text) {
        Ok(parsed) => check(alloc, file, text, &parsed),
        Err(stop) => Ok((Status::Refused, stop.line(alloc, file)?)),
    }
}

// Writes an answer, and tells its status or that a write failed.
fn deliver<K: Sink>(out: &mut K, status: Status, text: &[u8]) -> Status
    ensures { Written status text.now result
        (record { taken = K.taken out.old; faults = K.faults out.old })
        (record { taken = K.taken out.new; faults = K.faults out.new }) }
{
    match write_all(out, text) {
        Ok(()) => status,
        Err(_) => Status::WriteFault,
    }
}
