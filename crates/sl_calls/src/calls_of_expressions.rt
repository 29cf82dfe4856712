//! Each public call of sl_expressions.

use crate::expected::expect_that;
use sl_base::Mark;
use sl_expressions::effect::{cond, effect};
use sl_expressions::expression::list::{list, list_before};
use sl_expressions::expression::{expr, expr_and_height};
use sl_grammar::Tokens;
use sl_lexer::lex;
use sl_syntax::{Cond, Effect, Expr};

#[test]
fn expressions(rt: HostRuntime) {
    let tokens = lex(rt.alloc(), b"1 + 2 3").expect(&rt, "tokens");
    let mut cursor = Tokens::new(tokens.as_slice());
    let sum = expr_and_height(rt.alloc(), &mut cursor, 64, 1);
    let (sum, height) = sum.ok().expect(&rt, "a sum");
    expect_that(&rt, "a sum", matches!(sum, Expr::Binary { .. }));
    expect_that(&rt, "height 1", height == 1);
    let number = expr(rt.alloc(), &mut cursor, 64, 1);
    let number = number.ok().expect(&rt, "a number");
    expect_that(
        &rt,
        "the number 3",
        matches!(number, Expr::Number { value: 3, .. }),
    );
}

#[test]
fn lists_and_effects(rt: HostRuntime) {
    let tokens = lex(rt.alloc(), b"4, 5 )").expect(&rt, "tokens");
    let mut cursor = Tokens::new(tokens.as_slice());
    let numbers = list(rt.alloc(), &mut cursor, 60);
    let numbers = numbers.ok().expect(&rt, "a list");
    expect_that(&rt, "two numbers", numbers.len() == 2);
    let none = list_before(rt.alloc(), &mut cursor, 60, Mark::RightParenthesis);
    let none = none.ok().expect(&rt, "an empty list");
    expect_that(&rt, "no numbers", none.len() == 0);
    let tokens = lex(rt.alloc(), b"x = 6 std::cin >> y").expect(&rt, "tokens");
    let mut cursor = Tokens::new(tokens.as_slice());
    let assigned = effect(rt.alloc(), &mut cursor, 60);
    let assigned = assigned.ok().expect(&rt, "an effect");
    expect_that(
        &rt,
        "an assignment",
        matches!(assigned, Effect::Assign { .. }),
    );
    let read = cond(rt.alloc(), &mut cursor, 60);
    let read = read.ok().expect(&rt, "a condition");
    expect_that(&rt, "a read", matches!(read, Cond::Read(_)));
}
