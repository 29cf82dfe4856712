//! The tool where reads and writes fail or room runs out, and on texts of over a megabyte.

use crate::expected::{expect_bytes, expect_that};
use crate::given::{file_in_memory, words_of};
use sl_base::{MemSink, RealFiles, StdSink};
use sl_tool::run_tool;
use std::alloc::{AllocError, Global};
use std::process::Abort;

/// What a run is given: the text of `a.cpp`, how many bytes a read gives, the numbers of the calls that fail, and the
/// sink's room. Writes take 10 bytes.
#[derive(Clone, Copy)]
struct Outside<'a> {
    text: &'a [u8],
    chunk: usize,
    read_fails: &'a [u64],
    write_fails: &'a [u64],
    room: usize,
}

const HONEST: Outside<'static> = Outside {
    text: b"int main() {}",
    chunk: 7,
    read_fails: &[],
    write_fails: &[],
    room: 1000,
};

const PASSED: &str = "a.cpp: passed\n";

/// How a run ended: its status, what it wrote, and how many reads and writes failed.
#[derive(Drop)]
struct Ended {
    status: u8,
    text: Vec<u8>,
    read_faults: u64,
    write_faults: u64,
}

// Runs the tool on these words.
fn run(alloc: Global, words: &[&str], outside: &Outside) -> Result<Ended, AllocError> {
    let words = words_of(alloc, words)?;
    let mut files = file_in_memory(
        alloc,
        "a.cpp",
        outside.text,
        outside.chunk,
        outside.read_fails,
    )?;
    let mut out = MemSink::new(alloc, 10, outside.room, outside.write_fails.to_vec(alloc)?)?;
    let status = run_tool(alloc, &words, &mut files, &mut out).number();
    Ok(Ended {
        status,
        text: out.bytes().to_vec(alloc)?,
        read_faults: files.faults(),
        write_faults: out.faults(),
    })
}

// That `check a.cpp` ends and writes so. A status that tells of a fault has one fault.
fn expect_run(rt: &impl Abort, alloc: Global, outside: &Outside, status: u8, text: &str) {
    let ended = run(alloc, &["check", "a.cpp"], outside).expect(rt, "memory");
    expect_bytes(rt, &ended.text, text.as_bytes());
    expect_that(rt, text, ended.status == status);
    let write_faults = u64::from(status == 5);
    expect_that(rt, "failed writes", ended.write_faults == write_faults);
    let is_told = (status != 4) | (ended.read_faults == 1);
    expect_that(rt, "a failed read", is_told);
}

// That a run of which this read fails ends and writes so.
fn expect_read(rt: &impl Abort, alloc: Global, call: u64, status: u8, text: &str) {
    let outside = Outside {
        read_fails: &[call],
        ..HONEST
    };
    expect_run(rt, alloc, &outside, status, text);
}

#[test]
fn reads_that_fail(rt: HostRuntime) {
    // The text of 13 bytes takes three reads: 7 bytes, 6 bytes, the end.
    expect_read(&rt, rt.alloc(), 0, 4, "read fault: a.cpp\n");
    expect_read(&rt, rt.alloc(), 1, 4, "read fault: a.cpp\n");
    expect_read(&rt, rt.alloc(), 2, 4, "read fault: a.cpp\n");
    expect_read(&rt, rt.alloc(), 3, 0, PASSED);
}

// That a run of which this write fails, and that has this room, ends and writes so.
fn expect_write(rt: &impl Abort, alloc: Global, call: u64, room: usize, status: u8, text: &str) {
    let outside = Outside {
        write_fails: &[call],
        room,
        ..HONEST
    };
    expect_run(rt, alloc, &outside, status, text);
}

#[test]
fn writes_that_fail(rt: HostRuntime) {
    // The answer of 14 bytes takes two writes: 10 bytes, 4 bytes.
    expect_write(&rt, rt.alloc(), 0, 1000, 5, "");
    expect_write(&rt, rt.alloc(), 1, 1000, 5, "a.cpp: pas");
    expect_write(&rt, rt.alloc(), 2, 1000, 0, PASSED);
    expect_write(&rt, rt.alloc(), 2, 5, 5, "a.cpp");
    expect_write(&rt, rt.alloc(), 2, 14, 0, PASSED);
    expect_write(&rt, rt.alloc(), 2, 13, 5, "a.cpp: passed");
}

/// A text that is warned of.
const WARNED: &[u8] = b"int main() {
  std::vector<int> v;
  v.push_back(1);
  auto it = v.begin();
  v.push_back(2);
  int x = *it;
}
";

#[test]
fn answers_that_are_cut(rt: HostRuntime) {
    // A report may be cut.
    let outside = Outside {
        text: WARNED,
        write_fails: &[1],
        ..HONEST
    };
    expect_run(&rt, rt.alloc(), &outside, 5, "a.cpp:6:11");
    // The line of a read that failed may fail too.
    let outside = Outside {
        read_fails: &[1],
        write_fails: &[0],
        ..HONEST
    };
    expect_run(&rt, rt.alloc(), &outside, 5, "");
}

#[test]
fn rows_that_are_cut(rt: HostRuntime) {
    let outside = Outside {
        write_fails: &[2],
        ..HONEST
    };
    let ended = run(rt.alloc(), &["specs"], &outside).expect(&rt, "memory");
    expect_that(&rt, "a failed write", ended.status == 5);
    expect_bytes(&rt, &ended.text, b"vector.constructor()");
}

#[test]
fn names_that_are_not_there(rt: HostRuntime) {
    // A name that is none of the words that the real files were made with fails.
    let words = words_of(rt.alloc(), &["check", "a.cpp"]).expect(&rt, "words");
    let mut files = RealFiles::new(rt, rt.alloc(), &[]).expect(&rt, "no files");
    let mut out = MemSink::new(rt.alloc(), 10, 1000, Vec::new(rt.alloc())).expect(&rt, "a sink");
    let status = run_tool(rt.alloc(), &words, &mut files, &mut out);
    expect_that(&rt, "a failed read", status.number() == 4);
    expect_bytes(&rt, out.bytes(), b"read fault: a.cpp\n");
}

#[test]
fn standard_output(rt: HostRuntime) {
    // It takes a line.
    let mut files = RealFiles::new(rt, rt.alloc(), &[]).expect(&rt, "no files");
    let mut out = StdSink::new(rt);
    let status = run_tool(rt.alloc(), &[], &mut files, &mut out);
    expect_that(&rt, "usage", status.number() == 3);
}

// The empty program behind blanks, `length` bytes in all.
fn padded(alloc: Global, length: usize) -> Result<Vec<u8>, AllocError> {
    let program = b"int main() {}";
    let mut text = vec![in alloc; b' '; length.saturating_sub(program.len())]?;
    text.extend_from_slice(program)?;
    Ok(text)
}

// That a run on this text, read in large parts, ends and writes so.
fn expect_text(rt: &impl Abort, alloc: Global, text: &[u8], status: u8, line: &str) {
    let outside = Outside {
        text,
        chunk: 10_000,
        ..HONEST
    };
    expect_run(rt, alloc, &outside, status, line);
}

// That a run on a text so long ends and writes so.
fn expect_length(rt: &impl Abort, alloc: Global, length: usize, status: u8, line: &str) {
    let text = padded(alloc, length).expect(rt, "memory");
    expect_text(rt, alloc, &text, status, line);
}

#[test]
fn lengths(rt: HostRuntime) {
    let too_long = "a.cpp: refused: longer than 1048576 bytes\n";
    expect_length(&rt, rt.alloc(), 1_048_576, 0, PASSED);
    expect_length(&rt, rt.alloc(), 1_048_577, 2, too_long);
    expect_length(&rt, rt.alloc(), 1_100_000, 2, too_long);
}

// Adds so many lines, each with its number, from 1, between a head and a tail.
fn push_lines(
    alloc: Global,
    text: &mut String,
    count: usize,
    head: &str,
    tail: &str,
) -> Result<(), AllocError> {
    for k in 1..=count {
        text.push_str(&format!(in alloc; "{head}{k}{tail}\n")?)?;
    }
    Ok(())
}

// A text with so many vectors, calls of `push_back`, iterators and numbers.
fn counted(
    alloc: Global,
    vectors: usize,
    pushes: usize,
    iterators: usize,
    numbers: usize,
) -> Result<String, AllocError> {
    let mut text = String::from_str(alloc, "int main() {\n")?;
    push_lines(alloc, &mut text, vectors, "std::vector<int> v", ";")?;
    push_lines(alloc, &mut text, pushes, "v1.push_back(", ");")?;
    push_lines(alloc, &mut text, iterators, "auto i", " = v1.begin();")?;
    push_lines(alloc, &mut text, numbers, "int x", " = *i1;")?;
    text.push_str("}\n")?;
    Ok(text)
}

// That a run on a text of so many statements ends and writes so.
fn expect_counts(
    rt: &impl Abort,
    alloc: Global,
    counts: (usize, usize, usize, usize),
    status: u8,
    line: &str,
) {
    let (vectors, pushes, iterators, numbers) = counts;
    let text = counted(alloc, vectors, pushes, iterators, numbers).expect(rt, "memory");
    expect_text(rt, alloc, text.as_bytes(), status, line);
}

#[test]
fn limits_of_the_subset(rt: HostRuntime) {
    let alloc = rt.alloc();
    expect_counts(&rt, alloc, (16, 4095, 32, 48), 0, PASSED);
    let vectors = "a.cpp:18:1: refused: not built\n";
    expect_counts(&rt, alloc, (17, 4095, 32, 48), 2, vectors);
    let pushes = "a.cpp:4113:1: refused: not built\n";
    expect_counts(&rt, alloc, (16, 4096, 32, 48), 2, pushes);
    let iterators = "a.cpp:4145:1: refused: not built\n";
    expect_counts(&rt, alloc, (16, 4095, 33, 48), 2, iterators);
    let numbers = "a.cpp:4193:1: refused: not built\n";
    expect_counts(&rt, alloc, (16, 4095, 32, 49), 2, numbers);
}
