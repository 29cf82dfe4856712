//! Where tokens stop beginning a body, or a text.
ghost use Rattle.std.specs.Prelude.{◌≡◌, ◌↔◌, ◌∷◌, [], ℕ, List, IsTrue, Contains};
ghost use Rattle.sl_base.specs.declared.mark.Mark.TheVariants.{RightBrace};
ghost use Rattle.sl_base.specs.declared.word.Word.TheVariants.{Mark as MarkWord, Name as NameWord};
ghost use Rattle.sl_syntax.specs.Begins.{Stops};
ghost use Rattle.sl_tool.specs.Subset.{IsInSubset};
ghost use Rattle.sl_syntax.specs.Begins.{words_in};
ghost use Rattle.sl_tool.specs.Subset.{Scope, IsNew};
ghost use Rattle.sl_tool.specs.Means.Reading.{IsBody, StopsIn, StopsInHead, scope_of};
ghost use Rattle.sl_tool.specs.Means.Slots.{Fit, Fits, IsPossible};

use crate::reading::names::number_of;
use crate::reading::reader::Reader;
use crate::reading::slots::{Kind, Slot, head_slots, kind_at, slots_of};
use crate::reading::tokens::{is_key, is_lib, is_mark, is_name, name_in, number_in};
use sl_base::limits::{CONTAINERS, ITERATORS, SCALARS, SITES};
use sl_base::{Mark, Name, Token};
use std::alloc::Global;

/// The number of the token at which tokens stop that don't begin with `int main() {`.
pub fn stop_in_head(alloc: Global, tokens: &[Token]) -> usize
    ensures { StopsInHead (words_in tokens.now) result }
{
    fitting(&Reader::new(alloc), head_slots(), tokens)
}

/// The number of the token at which tokens stop where no statement is read of them, though one may follow.
pub fn stop_in_body(reader: &Reader, tokens: &[Token]) -> usize
    ensures { StopsIn (scope_of reader.now) (words_in tokens.now) result }
{
    match tokens {
        [] => 0,
        [brace, ..] if is_mark(brace, Mark::RightBrace) => 1,
        [first, ..] => match kind_at(first) {
            Some(kind) if is_possible(reader, kind) => fitting(reader, slots_of(kind), tokens),
            _ => 0,
        },
    }
}

/// The number of the token at which tokens stop that aren't the closing brace alone, where no statement may follow.
pub fn stop_without_room(tokens: &[Token]) -> usize
    ensures { (s : Scope) → (words_in tokens.now ≡ MarkWord RightBrace ∷ [] → ⊥) →
        Stops (IsBody s 0) (words_in tokens.now) result }
{
    match tokens {
        [brace, ..] if is_mark(brace, Mark::RightBrace) => 1,
        _ => 0,
    }
}

// Whether some statement of the kind may stand here.
fn is_possible(reader: &Reader, kind: Kind) -> bool
    ensures { IsTrue result ↔ IsPossible (scope_of reader.now) kind }
{
    match kind {
        Kind::Vector => reader.vectors.len() < CONTAINERS,
        Kind::PushBack => reader.vectors.len() > 0 && reader.sites.len() < SITES - 1,
        Kind::Begin => reader.vectors.len() > 0 && reader.iterators.len() < ITERATORS,
        Kind::Dereference => reader.iterators.len() > 0 && reader.numbers.len() < SCALARS,
    }
}

// How many of the tokens, one by one, fit the slots.
fn fitting(reader: &Reader, slots: &[Slot], tokens: &[Token]) -> usize
    ensures { Fit (scope_of reader.now) slots.now (words_in tokens.now) result }
{
    let count = slots.len().min(tokens.len());
    for k in 0..count {
        if !fits(reader, slots[k], &tokens[k]) {
            return k;
        }
    }
    count
}

// Whether the token may stand there.
fn fits(reader: &Reader, slot: Slot, token: &Token) -> bool
    ensures { IsTrue result ↔ Fits (scope_of reader.now) slot token.now.word }
{
    match slot {
        Slot::VectorLib => is_lib(token, b"vector"),
        Slot::IntKey => is_key(token, b"int"),
        Slot::AutoKey => is_key(token, b"auto"),
        Slot::MainName => is_name(token, b"main"),
        Slot::PushBackName => is_name(token, b"push_back"),
        Slot::BeginName => is_name(token, b"begin"),
        Slot::ThisMark(mark) => is_mark(token, mark),
        Slot::NewName => is_other(token, reader.names.as_slice()),
        Slot::VectorName => is_among(token, reader.vectors.as_slice()),
        Slot::IteratorName => is_among(token, reader.iterators.as_slice()),
        Slot::AnyNumber => number_in(token).is_some(),
    }
}

// Whether the token says one of these names.
fn is_among(token: &Token, names: &[Name]) -> bool
    ensures { IsTrue result ↔ ((name : List ℕ) × (token.now.word ≡ NameWord name) × Contains names.now name) }
{
    match name_in(token) {
        Some(name) => number_of(names, name) < names.len(),
        None => false,
    }
}

// Whether the token says a name that isn't one of these.
fn is_other(token: &Token, names: &[Name]) -> bool
    ensures { IsTrue result ↔ ((name : List ℕ) × (token.now.word ≡ NameWord name) × (Contains names.now name → ⊥)) }
{
    match name_in(token) {
        Some(name) => number_of(names, name) == names.len(),
        None => false,
    }
}
