//! Each public call of sl_grammar.

use crate::expected::{expect_bytes, expect_that};
use sl_base::Mark;
use sl_grammar::{Fault, Tokens, assignment_of, binary_level, goes_on, infix_of};
use sl_lexer::lex;
use sl_syntax::{Arithmetic, Assignment, BinaryOperator, TokenKind};

#[test]
fn operators(rt: HostRuntime) {
    let remainder = BinaryOperator::Arithmetic(Arithmetic::Remainder);
    expect_that(&rt, "level 6", binary_level(remainder) == 6);
    let infix = infix_of(TokenKind::Mark(Mark::OrOr));
    expect_that(&rt, "an or", matches!(infix, Some(BinaryOperator::Or)));
    expect_that(&rt, "level 8", goes_on(TokenKind::Mark(Mark::Dot)) == 8);
    let assignment = assignment_of(TokenKind::Mark(Mark::StarEqual));
    expect_that(
        &rt,
        "a product",
        matches!(assignment, Some(Assignment::Update(Arithmetic::Multiply))),
    );
}

#[test]
fn words_in_turn(rt: HostRuntime) {
    let tokens = lex(rt.alloc(), b"{ x 7 \"t\" std::f else !(std::cin").expect(&rt, "tokens");
    let mut cursor = Tokens::new(tokens.as_slice());
    expect_that(&rt, "nine tokens", cursor.left() == 9);
    expect_that(&rt, "a brace", cursor.sees(Mark::LeftBrace));
    expect_that(&rt, "the first column", cursor.place().col == 1);
    cursor.mark(Mark::LeftBrace).ok().expect(&rt, "a brace");
    cursor.identifier().ok().expect(&rt, "x");
    expect_that(&rt, "seven tokens", cursor.left() == 7);
    expect_that(&rt, "the number 7", cursor.number() == 7);
    expect_that(&rt, "a number", matches!(cursor.kind(), TokenKind::Number));
    cursor.skip();
    let text = cursor.text(rt.alloc()).expect(&rt, "a text");
    expect_bytes(&rt, text.as_slice(), b"t");
    cursor.skip();
    cursor.library().ok().expect(&rt, "std::f");
}

#[test]
fn words_seen(rt: HostRuntime) {
    let tokens = lex(rt.alloc(), b"const else !(std::cin").expect(&rt, "tokens");
    let mut cursor = Tokens::new(tokens.as_slice());
    expect_that(&rt, "a reference", cursor.sees_reference());
    cursor.skip();
    expect_that(&rt, "else", cursor.sees_else());
    cursor.skip();
    expect_that(&rt, "a failed read", cursor.sees_failed_read());
    expect_that(
        &rt,
        "three tokens left",
        matches!(cursor.refuse(), Fault::Grammar(3)),
    );
    cursor.skip();
    cursor.skip();
    expect_that(&rt, "a last token", !cursor.sees_end());
    cursor.skip();
    expect_that(&rt, "the end", cursor.sees_end());
}
