//! Case files that are wrong, and cases that differ.

use crate::expected::{expect_bytes, expect_that};
use sl_case_files::report_on;
use std::alloc::Global;
use std::process::Abort;

/// Case files, each with what is told of it.
const WRONG: [(&[u8], &str); 14] = [
    (b"int main() {}\n", "line 1: a heading begins with `%% `"),
    (b"%% case \xff\n", "line 1: a heading is text"),
    (b"%% case x\n%% token\n", "line 2: no such heading"),
    (
        b"%% case x\n%% file a.cpp\nint\n%% status 256\n",
        "line 4: no number that may stand there",
    ),
    (
        b"%% case x\n%% file a.cpp bytes\n",
        "line 2: no number that may stand there",
    ),
    (
        b"%% case x\n%% file a.cpp bytes 5\nint\n",
        "line 2: fewer bytes follow",
    ),
    (
        b"%% case x\n%% file a.cpp bytes 2\nint\n",
        "line 2: no line feed is behind so many bytes",
    ),
    (
        b"%% file a.cpp\n",
        "line 1: it stands before the first case",
    ),
    (
        b"%% case x\n%% file a.cpp bytes 6\n%% out\n%% words a\n%% words b\n",
        "line 5: the case has another already",
    ),
    (
        b"%% case x\nint\n",
        "line 1: lines that belong to nothing follow",
    ),
    (b"%% case \n", "line 1: a case has a name"),
    (
        b"%% case x\n%% file a.cpp\n%% words check a.cpp\n%% status 0\n",
        "line 1: a case has words, status and out, or one file and one of tokens, tree, groups, grammar, refusal",
    ),
    (
        b"%% case x\n%% file a.cpp\n%% refusal\n%% case y\n%% refusal\n",
        "line 4: a case has words, status and out, or one file and one of tokens, tree, groups, grammar, refusal",
    ),
    (
        b"%% case x\n%% file a.cpp\n%% refusal\n%% tokens\n",
        "line 4: the case has another already",
    ),
];

// That this is told of a case file.
fn expect_told(rt: &impl Abort, alloc: Global, text: &[u8], due: &str) {
    let error = report_on(alloc, "x.cases", text).err().expect(rt, due);
    let told = format!(in alloc; "{error}").expect(rt, "memory");
    expect_bytes(rt, told.as_bytes(), due.as_bytes());
}

#[test]
fn wrong_case_files(rt: HostRuntime) {
    for (text, due) in &WRONG {
        expect_told(&rt, rt.alloc(), text, due);
    }
}

/// One case of each kind that differs, between two that don't.
const DIFFERING: &[u8] = b"%% case an empty text
%% file a.cpp
%% tokens
%% case another number
%% file a.cpp
7
%% tokens
number 8 0 1:1
%% case a word too few
%% file a.cpp bytes 13
int main() {}
%% tree
key int
%% case another tree
%% file a.cpp
int main() { return 1 - 2 - 3; }
%% groups
return [1-[2-3]]
%% case no refusal
%% file a.cpp
x
%% refusal
%% case another status
%% words check a.cpp
%% file a.cpp
int main() {}
%% status 1
%% out
a.cpp: passed
%% case the least program
%% file a.cpp
int main() {}
%% refusal
";

/// What is printed of them.
const TOLD: &str = "x.cases:4: another number
due:
number 8 0 1:1
came:
number 7 0 1:1
x.cases:9: a word too few
due:
key int
came:
key int
name main
mark (
mark )
mark {
mark }
x.cases:14: another tree
due:
return [1-[2-3]]
came:
return [[1-2]-3]
x.cases:19: no refusal
due:
came:
a.cpp:1:1: refused: grammar
x.cases:23: another status
due:
status 1
a.cpp: passed
came:
status 0
a.cpp: passed
";

#[test]
fn differing_cases(rt: HostRuntime) {
    let report = report_on(rt.alloc(), "x.cases", DIFFERING).expect(&rt, "a report");
    expect_that(&rt, "seven cases", report.cases == 7);
    expect_that(&rt, "five that differ", report.differ == 5);
    expect_bytes(&rt, &report.text, TOLD.as_bytes());
}
