//! Each public call of sl_cells.
ghost use Rattle.std.specs.Prelude.{◌≡◌};
ghost use Rattle.sl_base.specs.declared.scalar.Scalar.TheVariants as kind;
ghost use Rattle.sl_intervals.specs.Intervals.{LiesIn};
ghost use Rattle.sl_cells.specs.Windows.{IsOfInts};

use crate::expected::expect_that;
use sl_cells::Cells;
use sl_intervals::{Interval, Sure};

/// A single number.
fn only(z: i128) -> Interval
    ensures low { result.low ≡ z }
    ensures high { result.high ≡ z }
{
    Interval { low: z, high: z }
}

/// A single int.
fn int(z: i32) -> Interval
    ensures { LiesIn kind.Int result }
{
    only(i128::from(z))
}

/// The cells with one more element at a place.
fn with_element(cells: &Cells<4>, place: i128, key: i32, value: i32) -> Cells<4>
    requires { IsOfInts cells.now }
    ensures { IsOfInts result }
{
    cells.insert(only(place), int(key), int(value))
}

/// The cells of the keys 3 and 1, each with the value 7.
fn cells_of_two() -> Cells<4>
    ensures { IsOfInts result }
{
    let none: Cells<4> = Cells::empty();
    let one = with_element(&none, 0, 3, 7);
    with_element(&one, 1, 1, 7)
}

#[test]
fn calls_on_elements(rt: HostRuntime) {
    let two = cells_of_two();
    let (key, value) = two.get(only(1));
    expect_that(&rt, "an element", (key.low == 1) & (value.high == 7));
    let less = two.erase(only(0), only(1));
    expect_that(&rt, "an erasure", less.get(only(0)).0.high == 1);
    let written = two.write(only(0), only(5), only(7));
    expect_that(&rt, "a write", written.get(only(0)).0.low == 5);
    let turned = two.reverse();
    expect_that(&rt, "a reversal", turned.get(only(0)).0.high == 1);
    let joined = two.join(&turned);
    expect_that(
        &rt,
        "a join",
        (joined.get(only(0)).0.low == 1) & (joined.get(only(0)).0.high == 3),
    );
}

#[test]
fn a_call_of_widen(rt: HostRuntime) {
    let two = cells_of_two();
    let grown = with_element(&two.erase(only(0), only(1)), 0, 5, 7);
    let widened = two.widen(&grown, &[0, 9]);
    let (grew, kept) = (widened.get(only(0)), widened.get(only(1)));
    expect_that(&rt, "a widening", (grew.0.low == 3) & (grew.0.high == 9));
    expect_that(
        &rt,
        "what didn't grow",
        (kept.0.high == 1) & (kept.1.low == 7),
    );
}

#[test]
fn calls_on_orders(rt: HostRuntime) {
    let two = cells_of_two();
    let part = only(2);
    expect_that(
        &rt,
        "no order",
        matches!(two.is_sorted(only(0), part), Sure::Never),
    );
    let sorted = two.sort();
    expect_that(
        &rt,
        "an order",
        matches!(sorted.is_sorted(only(0), part), Sure::Always),
    );
    let below = two.partition_below(only(0), part, only(2));
    expect_that(&rt, "no partition below", matches!(below, Sure::Never));
    let above = two.partition_above(only(0), part, only(3));
    expect_that(&rt, "a partition above", matches!(above, Sure::Always));
}
