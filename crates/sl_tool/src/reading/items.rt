//! The statement whose tokens begin a list of tokens, one function a kind.
ghost use Rattle.std.specs.Prelude.{◌≡◌, ℕ, List, MatchOption};
ghost use Rattle.sl_syntax.specs.Begins.{words_in};
ghost use Rattle.sl_tool.specs.Subset.{begin_item, dereference_item, push_back_item, vector_item};
ghost use Rattle.sl_tool.specs.Means.Reading.{BeginsWith};

use crate::reading::tokens::{
    is_key, is_lib, is_mark, is_name, name_and_number, name_in, names_in,
};
use sl_base::{Mark, Name, Token};

/// How many tokens `std::vector<int> name;` has.
pub const VECTOR_TOKENS: usize = 6;

/// How many tokens `vector.push_back(number);` has.
pub const PUSH_BACK_TOKENS: usize = 7;

/// How many tokens `auto name = vector.begin();` has.
pub const BEGIN_TOKENS: usize = 9;

/// How many tokens `int name = *iterator;` has.
pub const DEREFERENCE_TOKENS: usize = 6;

/// `std::vector<int> name;`, by its name.
pub fn vector_at(tokens: &[Token]) -> Option<&Name>
    ensures { MatchOption result
        ((name : List ℕ) → BeginsWith (words_in tokens.now) (vector_item name) → ⊥)
        (λ name. BeginsWith (words_in tokens.now) (vector_item name.now)) }
{
    match tokens {
        [lib, less, int, greater, name, semicolon, ..]
            if is_lib(lib, b"vector")
                && is_mark(less, Mark::Less)
                && is_key(int, b"int")
                && is_mark(greater, Mark::Greater)
                && is_mark(semicolon, Mark::Semicolon) => { name_in(name) }
        _ => None,
    }
}

/// `vector.push_back(number);`, by the vector's name and the number.
pub fn push_back_at(tokens: &[Token]) -> Option<(&Name, u32)>
    ensures { MatchOption result
        ((vector : List ℕ) (number : ℕ) → BeginsWith (words_in tokens.now) (push_back_item vector number) → ⊥)
        (λ found. BeginsWith (words_in tokens.now) (push_back_item found.0.now found.1)) }
{
    match tokens {
        [vector, dot, call, open, number, close, semicolon, ..]
            if is_mark(dot, Mark::Dot)
                && is_name(call, b"push_back")
                && is_mark(open, Mark::LeftParenthesis)
                && is_mark(close, Mark::RightParenthesis)
                && is_mark(semicolon, Mark::Semicolon) => { name_and_number(vector, number) }
        _ => None,
    }
}

/// `auto name = vector.begin();`, by the two names.
pub fn begin_at(tokens: &[Token]) -> Option<(&Name, &Name)>
    ensures { MatchOption result
        ((name vector : List ℕ) → BeginsWith (words_in tokens.now) (begin_item name vector) → ⊥)
        (λ found. BeginsWith (words_in tokens.now) (begin_item found.0.now found.1.now)) }
{
    match tokens {
        [
            auto,
            name,
            equal,
            vector,
            dot,
            call,
            open,
            close,
            semicolon,
            ..
        ] if is_key(auto, b"auto")
            && is_mark(equal, Mark::Equal)
            && is_mark(dot, Mark::Dot)
            && is_name(call, b"begin")
            && is_mark(open, Mark::LeftParenthesis)
            && is_mark(close, Mark::RightParenthesis)
            && is_mark(semicolon, Mark::Semicolon) => { names_in(name, vector) }
        _ => None,
    }
}

/// `int name = *iterator;`, by the two names.
pub fn dereference_at(tokens: &[Token]) -> Option<(&Name, &Name)>
    ensures { MatchOption result
        ((name iterator : List ℕ) → BeginsWith (words_in tokens.now) (dereference_item name iterator) → ⊥)
        (λ found. BeginsWith (words_in tokens.now) (dereference_item found.0.now found.1.now)) }
{
    match tokens {
        [int, name, equal, star, iterator, semicolon, ..]
            if is_key(int, b"int")
                && is_mark(equal, Mark::Equal)
                && is_mark(star, Mark::Star)
                && is_mark(semicolon, Mark::Semicolon) => { names_in(name, iterator) }
        _ => None,
    }
}
