//! Each public call of sl_base.

use crate::expected::{expect_bytes, expect_that};
use crate::given::{file_in_memory, words_of};
use sl_base::{
    Files, Items, MemSink, Name, Place, RealFiles, Sink, Site, StdSink, place_of, read_all,
    write_all,
};

#[test]
fn items_and_values_of_base(rt: HostRuntime) {
    let mut items = Items::from_slice(rt.alloc(), &[1u8, 2]).expect(&rt, "two items");
    items.push(3).expect(&rt, "a third item");
    items
        .extend_from_slice(&[4, 5])
        .expect(&rt, "two items more");
    expect_that(&rt, "five items", items.len() == 5);
    expect_bytes(&rt, items.as_slice(), &[1, 2, 3, 4, 5]);
    let none: Items<u8> = Items::new(rt.alloc());
    expect_that(&rt, "no items", none.len() == 0);
    expect_bytes(&rt, Name::new(b"it").as_slice(), b"it");
    expect_that(&rt, "the last site", Site::new(4_095).number() == 4_095);
    let place = place_of(b"int\n  x", 6);
    expect_that(&rt, "the place of x", (place.line == 2) & (place.col == 3));
    let place = Place::FIRST.after(b"a\nbc");
    expect_that(
        &rt,
        "the place behind c",
        (place.line == 2) & (place.col == 3),
    );
}

#[test]
fn reads_and_writes_of_base(rt: HostRuntime) {
    let mut files = file_in_memory(rt.alloc(), "a", b"abcdefgh", 5, &[]).expect(&rt, "a file");
    let mut buf = [0u8; 4];
    let count = files.read("a", &mut buf).ok().expect(&rt, "a read");
    expect_that(&rt, "four bytes", count == 4);
    expect_bytes(&rt, &buf, b"abcd");
    let rest = read_all(rt.alloc(), &mut files, "a", 100).expect(&rt, "the rest");
    expect_bytes(&rt, &rest, b"efgh");
    expect_that(&rt, "no read fails", files.faults() == 0);
    let mut sink = MemSink::new(rt.alloc(), 3, 100, Vec::new(rt.alloc())).expect(&rt, "a sink");
    let count = sink.write(b"abcd").ok().expect(&rt, "a write");
    expect_that(&rt, "three bytes", count == 3);
    write_all(&mut sink, b"defg").ok().expect(&rt, "the rest");
    expect_bytes(&rt, sink.bytes(), b"abcdefg");
    expect_that(&rt, "no write fails", sink.faults() == 0);
}

#[test]
fn real_outside_of_base(rt: HostRuntime) {
    let words = words_of(rt.alloc(), &["/dev/null"]).expect(&rt, "a word");
    let mut files = RealFiles::new(rt, rt.alloc(), &words).expect(&rt, "real files");
    let mut buf = [0u8; 4];
    let count = files.read("/dev/null", &mut buf).ok().expect(&rt, "a read");
    expect_that(&rt, "no bytes", count == 0);
    StdSink::new(rt).write(b"\n").ok().expect(&rt, "a write");
}
