//! Each public call of sl_parser.

use crate::expected::expect_that;
use sl_base::limits::TEXT_BYTES;
use sl_lexer::lex;
use sl_parser::parse;

#[test]
fn calls_of_parser(rt: HostRuntime) {
    let tokens = lex(rt.alloc(), b"void f(int a) {} int main() { f(1); }").expect(&rt, "tokens");
    assert!(rt; tokens.len() <= TEXT_BYTES);
    let program = parse(rt.alloc(), tokens.as_slice()).expect(&rt, "a program");
    expect_that(&rt, "two functions", program.functions.len() == 2);
}
