//! Each public call of sl_tool but `run_tool`, which `outside` runs.

use crate::calls_of_runs::expect_runs;
use crate::calls_of_types::expect_only_main;
use crate::expected::{expect_bytes, expect_that};
use sl_tool::{Status, parsed_text, typed_text};

#[test]
fn programs_of_tool(rt: HostRuntime) {
    let read = parsed_text(rt.alloc(), b"int main() {}");
    let parsed = read.ok().expect(&rt, "the least program");
    expect_that(&rt, "six tokens", parsed.tokens.len() == 6);
    expect_that(&rt, "one function", parsed.program.functions.len() == 1);
    expect_only_main(&rt, rt.alloc(), &parsed.program);
    let read = typed_text(rt.alloc(), b"int main() {}");
    let text = read.ok().expect(&rt, "its typed text");
    expect_that(&rt, "no sites", text.sites.len() == 0);
}

#[test]
fn statuses_of_tool(rt: HostRuntime) {
    let numbers = [
        Status::Passed.number(),
        Status::Warned.number(),
        Status::Refused.number(),
        Status::Usage.number(),
        Status::ReadFault.number(),
        Status::WriteFault.number(),
        Status::Memory.number(),
    ];
    expect_bytes(&rt, &numbers, &[0, 1, 2, 3, 4, 5, 6]);
    expect_runs(&rt, rt.alloc());
}
