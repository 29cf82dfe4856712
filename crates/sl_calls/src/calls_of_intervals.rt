//! Each public call of sl_intervals.

use crate::expected::expect_that;
use sl_base::Scalar;
use sl_intervals::{
    Interval, SizeFact, SizeFacts, Sure, add, convert, div, join, less, meet, mul, rem, sub, widen,
};

#[test]
fn calls_of_intervals(rt: HostRuntime) {
    let low = Interval { low: -3, high: 4 };
    let high = Interval { low: 2, high: 9 };
    let joined = join(low, high);
    expect_that(&rt, "a join", (joined.low == -3) & (joined.high == 9));
    let met = meet(low, high);
    expect_that(&rt, "a meet", (met.low == 2) & (met.high == 4));
    let compared = less(low, high);
    expect_that(
        &rt,
        "a comparison",
        (compared.value.low == 0) & (compared.value.high == 1),
    );
    let wrapped = convert(Scalar::Size, Interval { low: -2, high: -1 });
    expect_that(&rt, "a conversion", wrapped.low == 18446744073709551614);
    let widened = widen(low, joined, &[0, 5, 10, 20], Scalar::Int);
    expect_that(
        &rt,
        "a widening",
        (widened.low == -3) & (widened.high == 10),
    );
    let sum = add(Scalar::Int, high, high);
    expect_that(&rt, "a sum", (sum.value.low == 4) & (sum.value.high == 18));
    expect_that(
        &rt,
        "a sum that doesn't fault",
        matches!(sum.fault, Sure::Never),
    );
    let difference = sub(Scalar::Int, low, high);
    expect_that(
        &rt,
        "a difference",
        (difference.value.low == -12) & (difference.value.high == 2),
    );
}

#[test]
fn calls_of_products(rt: HostRuntime) {
    let low = Interval { low: -3, high: 4 };
    let high = Interval { low: 2, high: 9 };
    let product = mul(Scalar::Int, low, high);
    expect_that(
        &rt,
        "a product",
        (product.value.low == -27) & (product.value.high == 36),
    );
    let quotient = div(Scalar::Int, low, high);
    expect_that(
        &rt,
        "a quotient",
        (quotient.value.low == -1) & (quotient.value.high == 2),
    );
    let rest = rem(Scalar::Int, high, low);
    expect_that(
        &rt,
        "a remainder that may fault",
        matches!(rest.fault, Sure::May),
    );
}

#[test]
fn calls_of_size_facts(rt: HostRuntime) {
    let mut facts = SizeFacts::new();
    facts.set(3, 2, SizeFact::Below);
    expect_that(&rt, "a fact", matches!(facts.get(3, 2), SizeFact::Below));
    let mut other = SizeFacts::new();
    other.set(3, 2, SizeFact::Upto);
    let both = facts.join(&other);
    expect_that(
        &rt,
        "what both tell",
        matches!(both.get(3, 2), SizeFact::Upto),
    );
    facts.drop_scalar(3);
    expect_that(
        &rt,
        "a scalar's facts dropped",
        matches!(facts.get(3, 2), SizeFact::Nothing),
    );
    other.drop_container(2);
    expect_that(
        &rt,
        "a container's facts dropped",
        matches!(other.get(3, 2), SizeFact::Nothing),
    );
}
