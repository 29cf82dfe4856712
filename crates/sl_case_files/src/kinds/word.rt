//! A word as cases show it.

use sl_base::{Mark, Name, Word};
use std::alloc::{AllocError, Global};
use std::str::from_utf8;

/// What sort a word is, and what it says: a text with its bytes escaped, a mark as it is spelled.
pub fn word_text(alloc: Global, word: &Word) -> Result<String, AllocError> {
    match word {
        Word::Name(name) => format!(in alloc; "name {}", name_text(name)),
        Word::Lib(name) => format!(in alloc; "lib {}", name_text(name)),
        Word::Key(name) => format!(in alloc; "key {}", name_text(name)),
        Word::Number(value) => format!(in alloc; "number {value}"),
        Word::Text(bytes) => format!(in alloc; "text \"{}\"", bytes.as_slice().escape_ascii()),
        Word::Mark(mark) => format!(in alloc; "mark {}", mark_text(*mark)),
    }
}

/// A name.
pub fn name_text(name: &Name) -> &str {
    from_utf8(name.as_slice()).unwrap_or("?")
}

// How a mark is spelled.
fn mark_text(mark: Mark) -> &'static str {
    match mark {
        Mark::LeftBrace => "{",
        Mark::RightBrace => "}",
        Mark::LeftParenthesis => "(",
        Mark::RightParenthesis => ")",
        Mark::LeftBracket => "[",
        Mark::RightBracket => "]",
        Mark::Less => "<",
        Mark::Greater => ">",
        Mark::LessEqual => "<=",
        Mark::GreaterEqual => ">=",
        Mark::EqualEqual => "==",
        Mark::NotEqual => "!=",
        Mark::Equal => "=",
        Mark::PlusEqual => "+=",
        Mark::MinusEqual => "-=",
        Mark::StarEqual => "*=",
        Mark::SlashEqual => "/=",
        Mark::PercentEqual => "%=",
        Mark::Plus => "+",
        Mark::Minus => "-",
        Mark::Star => "*",
        Mark::Slash => "/",
        Mark::Percent => "%",
        Mark::PlusPlus => "++",
        Mark::MinusMinus => "--",
        Mark::Not => "!",
        Mark::AndAnd => "&&",
        Mark::OrOr => "||",
        Mark::And => "&",
        Mark::Comma => ",",
        Mark::Semicolon => ";",
        Mark::Colon => ":",
        Mark::ColonColon => "::",
        Mark::Dot => ".",
        Mark::Arrow => "->",
        Mark::ShiftLeft => "<<",
        Mark::ShiftRight => ">>",
    }
}
