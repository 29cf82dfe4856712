//! Each public call of sl_syntax.

use crate::expected::{expect_bytes, expect_that};
use sl_base::{Form, Mark, Name, Place, Scalar, Word};
use sl_case_files::word_text;
use sl_syntax::{
    Block, ContainerType, Function, Identifier, Program, ResultType, TokenKind, write_tokens,
};
use std::alloc::{AllocError, Global};

// `int main() {}`
fn least_program(alloc: Global) -> Result<Program, AllocError> {
    let place = Place::FIRST;
    let mut functions = Vec::new(alloc);
    functions.push(Function {
        place,
        result: ResultType::Scalar(Scalar::Int),
        name: Identifier {
            name: Name::new(b"main"),
            place,
        },
        params: Vec::new(alloc),
        body: Block {
            place,
            items: Vec::new(alloc),
            close: place,
        },
    })?;
    Ok(Program { functions })
}

// Words as cases show them, each with a semicolon.
fn text_of(alloc: Global, words: &[Word]) -> Result<String, AllocError> {
    let mut text = String::new(alloc);
    for word in words {
        text.push_str(&word_text(alloc, word)?)?;
        text.push_str(";")?;
    }
    Ok(text)
}

#[test]
fn words_of_a_tree(rt: HostRuntime) {
    let program = least_program(rt.alloc()).expect(&rt, "a program");
    let words = write_tokens(rt.alloc(), &program).expect(&rt, "its words");
    let text = text_of(rt.alloc(), words.as_slice()).expect(&rt, "a text");
    expect_bytes(
        &rt,
        text.as_bytes(),
        b"key int;name main;mark (;mark );mark {;mark };",
    );
}

#[test]
fn kinds_of_words(rt: HostRuntime) {
    let kind = TokenKind::of(&Word::Lib(Name::new(b"multiply")));
    expect_that(
        &rt,
        "a name of the library",
        matches!(kind, TokenKind::Library),
    );
    let kind = TokenKind::of(&Word::Mark(Mark::Arrow));
    expect_that(
        &rt,
        "an arrow",
        matches!(kind, TokenKind::Mark(Mark::Arrow)),
    );
    expect_that(&rt, "a map", is_map(Form::HashMap));
    expect_that(&rt, "no map", !is_map(Form::Set));
}

fn is_map(form: Form) -> bool {
    let place = Place::FIRST;
    ContainerType { place, form }.is_map()
}
