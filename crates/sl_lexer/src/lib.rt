// The tokens of a text.
#![tactic(auto)]

mod byte;
mod comment;
mod directive;
mod error;
mod front;
mod keyword;
mod laws;
mod lexer;
mod line;
mod mark;
mod name;
mod number;
mod text;

pub use error::LexErr;
pub use laws::{one_answer, one_cut, tokens_ascend};
pub use lexer::lex;
