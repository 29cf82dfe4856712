//! Each public call of sl_specs.

use crate::expected::{expect_bytes, expect_that};
use sl_base::{Form, Name};
use sl_specs::rows::{DEQUE_PUSH_BACK, STD_SORT};
use sl_specs::{Class, Letter, Need, ReturnType, entries, print_rows, row, row_at, signature};

#[test]
fn rows_and_tables(rt: HostRuntime) {
    let found = row(Some(Form::List), &Name::new(b"splice"), 2).expect(&rt, "a row");
    let needs = found.needs.as_slice();
    expect_that(
        &rt,
        "two needs",
        matches!(needs, [Need::PositionInObject, Need::SplicedRange]),
    );
    let sort = row(None, &Name::new(b"sort"), 0).expect(&rt, "an algorithm");
    expect_that(&rt, "its number", sort.number == STD_SORT);
    let pushed = row_at(DEQUE_PUSH_BACK).expect(&rt, "a row by its number");
    expect_bytes(&rt, pushed.call.as_slice(), b"push_back");
    expect_that(&rt, "its class", matches!(pushed.kills, Class::DequeInsert));
    expect_that(&rt, "no row behind the last", row_at(231).is_none());
    let asked = signature(DEQUE_PUSH_BACK).expect(&rt, "what typing asks");
    expect_that(
        &rt,
        "an element",
        matches!(asked.letters, [Letter::Element]),
    );
    expect_that(&rt, "no value", matches!(asked.gives, ReturnType::Nothing));
    expect_that(&rt, "a change", asked.changes);
    expect_that(&rt, "231 entries", entries().len() == 231);
    let text = print_rows(rt.alloc()).expect(&rt, "the text");
    expect_that(&rt, "a last line", text.as_slice().ends_with(b"231 rows\n"));
    expect_bytes(&rt, Need::Movable.text().as_bytes(), b"MV");
    expect_bytes(&rt, Class::HashReserve.text().as_bytes(), b"HR");
}
