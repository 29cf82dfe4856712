//! The kinds of statements, as rows of what may stand at each of their places.
ghost use Rattle.std.specs.Prelude.{◌≡◌, MatchOption};
ghost use Rattle.sl_tool.specs.Means.Slots.{
  BeginsKind,
  head_slots as head_value,
  slots_of as slots_value,
};
ghost use Rattle.sl_tool.specs.declared.reading.slots.Kind.{Kind as KindValue};

use crate::reading::tokens::{is_key, is_lib, name_in};
use sl_base::{Mark, Token};

/// What may stand at one place: a word, or any of a sort.
#[derive(Clone, Copy)]
pub enum Slot {
    /// `std::vector`
    VectorLib,
    /// `int`
    IntKey,
    /// `auto`
    AutoKey,
    /// `main`
    MainName,
    /// `push_back`
    PushBackName,
    /// `begin`
    BeginName,
    ThisMark(Mark),
    /// A name that isn't declared yet.
    NewName,
    /// The name of a vector that is declared.
    VectorName,
    /// The name of an iterator that is declared.
    IteratorName,
    AnyNumber,
}

/// A kind of statement.
#[derive(Clone, Copy)]
pub enum Kind {
    /// `std::vector<int> name;`
    Vector,
    /// `vector.push_back(number);`
    PushBack,
    /// `auto name = vector.begin();`
    Begin,
    /// `int name = *iterator;`
    Dereference,
}

/// The kind of the statements that begin with the token.
pub fn kind_at(token: &Token) -> Option<Kind>
    ensures { MatchOption result
        ((kind : KindValue) → BeginsKind kind token.now.word → ⊥)
        (λ kind. BeginsKind kind token.now.word) }
{
    if is_lib(token, b"vector") {
        return Some(Kind::Vector);
    }
    if is_key(token, b"auto") {
        return Some(Kind::Begin);
    }
    if is_key(token, b"int") {
        return Some(Kind::Dereference);
    }
    match name_in(token) {
        Some(_) => Some(Kind::PushBack),
        None => None,
    }
}

/// `int main() {`
pub fn head_slots() -> &'static [Slot]
    ensures { result.now ≡ head_value }
{
    &[
        Slot::IntKey,
        Slot::MainName,
        Slot::ThisMark(Mark::LeftParenthesis),
        Slot::ThisMark(Mark::RightParenthesis),
        Slot::ThisMark(Mark::LeftBrace),
    ]
}

/// What stands at each place of a statement.
pub fn slots_of(kind: Kind) -> &'static [Slot]
    ensures { result.now ≡ slots_value kind }
{
    match kind {
        Kind::Vector => &[
            Slot::VectorLib,
            Slot::ThisMark(Mark::Less),
            Slot::IntKey,
            Slot::ThisMark(Mark::Greater),
            Slot::NewName,
            Slot::ThisMark(Mark::Semicolon),
        ],
        Kind::PushBack => &[
            Slot::VectorName,
            Slot::ThisMark(Mark::Dot),
            Slot::PushBackName,
            Slot::ThisMark(Mark::LeftParenthesis),
            Slot::AnyNumber,
            Slot::ThisMark(Mark::RightParenthesis),
            Slot::ThisMark(Mark::Semicolon),
        ],
        Kind::Begin => &[
            Slot::AutoKey,
            Slot::NewName,
            Slot::ThisMark(Mark::Equal),
            Slot::VectorName,
            Slot::ThisMark(Mark::Dot),
            Slot::BeginName,
            Slot::ThisMark(Mark::LeftParenthesis),
            Slot::ThisMark(Mark::RightParenthesis),
            Slot::ThisMark(Mark::Semicolon),
        ],
        Kind::Dereference => &[
            Slot::IntKey,
            Slot::NewName,
            Slot::ThisMark(Mark::Equal),
            Slot::ThisMark(Mark::Star),
            Slot::IteratorName,
            Slot::ThisMark(Mark::Semicolon),
        ],
    }
}
