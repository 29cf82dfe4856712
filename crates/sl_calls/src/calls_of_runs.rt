//! The public calls of sl_lists and sl_end_text, which the test of the tool's statuses makes.

use crate::expected::{expect_bytes, expect_that};
use sl_base::Items;
use sl_end_text::end_text;
use sl_lists::{read_input, read_schedule};
use sl_model::{End, Finish, Output};
use std::alloc::Global;
use std::process::Abort;

/// That an input and a schedule are read, and that the end of a run is told.
pub fn expect_runs(rt: &impl Abort, alloc: Global) {
    let input = read_input(alloc, b" 7 -12\n").ok().expect(rt, "an input");
    expect_that(rt, "two ints", input.as_slice() == [7, -12].as_slice());
    let read = read_schedule(alloc, b"0 4294967295");
    let schedule = read.ok().expect(rt, "a schedule");
    expect_that(
        rt,
        "two numbers",
        schedule.as_slice() == [0, 4_294_967_295].as_slice(),
    );
    let bytes = Items::from_slice(alloc, b"12").expect(rt, "memory");
    let output = Output { bytes, lost: 0 };
    let end = End::Done(3);
    let told = end_text(alloc, &[], &Finish { end, output }).expect(rt, "memory");
    expect_bytes(rt, told.as_slice(), b"12\nrun: done 3\n");
}
