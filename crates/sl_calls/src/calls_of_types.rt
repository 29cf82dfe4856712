//! The public call of sl_types, which a test of sl_tool makes with a program that it has read.

use crate::expected::expect_that;
use sl_syntax::Program;
use sl_types::resolve;
use std::alloc::Global;
use std::process::Abort;

/// That a program of one function, which is `main`, is typed as one.
pub fn expect_only_main(rt: &impl Abort, alloc: Global, program: &Program) {
    let text = resolve(alloc, program).ok().expect(rt, "a typed text");
    expect_that(rt, "one function typed", text.functions.len() == 1);
    expect_that(rt, "main is the first", text.main == 0);
}
