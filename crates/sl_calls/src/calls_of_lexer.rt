//! Each public call of sl_lexer.

use crate::expected::expect_that;
use sl_lexer::lex;

#[test]
fn calls_of_lexer(rt: HostRuntime) {
    let tokens = lex(rt.alloc(), b"int main() {}").expect(&rt, "tokens");
    expect_that(&rt, "six tokens", tokens.len() == 6);
}
