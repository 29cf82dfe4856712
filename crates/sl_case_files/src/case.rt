//! A case: what is asked, and what is due.

/// A file that a case has.
#[derive(Clone, Copy)]
pub struct SourceFile<'a> {
    pub name: &'a str,
    pub bytes: &'a [u8],
}

/// What is asked of a text.
#[derive(Clone, Copy)]
pub enum TextKind {
    /// Its tokens, one a line.
    Tokens,
    /// The words of its tree, one a line.
    Tree,
    /// How its operators and statements group, a line for each item of a function.
    Groups,
    /// The line that refuses it by its tokens or the grammar, or nothing.
    Grammar,
    /// The line that refuses it by its tokens, the grammar or typing, or nothing.
    Refusal,
}

/// What is asked, and the answer that is due.
#[derive(Drop)]
pub enum Asked<'a> {
    /// How the tool ends and what it writes, on these words, each behind a blank but the first.
    Command {
        words: &'a str,
        files: Vec<SourceFile<'a>>,
        status: u8,
        out: &'a [u8],
    },
    /// Something of a text.
    Text {
        kind: TextKind,
        file: SourceFile<'a>,
        due: &'a [u8],
    },
}

/// A case, and the line on which it begins.
#[derive(Drop)]
pub struct Case<'a> {
    pub line: usize,
    pub name: &'a str,
    pub asked: Asked<'a>,
}
