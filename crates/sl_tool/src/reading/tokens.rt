//! What tokens say, and where.
ghost use Rattle.std.specs.Prelude.{◌≡◌, ℕ, ◌↔◌, List, IsTrue, MatchOption};
ghost use Rattle.sl_tool.specs.Subset.{place_in as place_value};
ghost use Rattle.sl_base.specs.declared.word.Word.TheVariants.{
  Key as KeyWord,
  Lib as LibWord,
  Mark as MarkWord,
  Name as NameWord,
  Number as NumberWord,
};

use sl_base::{Mark, Name, Place, Token, Word};

/// Whether it is this key.
pub fn is_key(token: &Token, key: &[u8]) -> bool
    ensures { IsTrue result ↔ (token.now.word ≡ KeyWord key.now) }
{
    match &token.word {
        Word::Key(there) => there.as_slice() == key,
        _ => false,
    }
}

/// Whether it is this name behind `std::`.
pub fn is_lib(token: &Token, name: &[u8]) -> bool
    ensures { IsTrue result ↔ (token.now.word ≡ LibWord name.now) }
{
    match &token.word {
        Word::Lib(there) => there.as_slice() == name,
        _ => false,
    }
}

/// Whether it is this name.
pub fn is_name(token: &Token, name: &[u8]) -> bool
    ensures { IsTrue result ↔ (token.now.word ≡ NameWord name.now) }
{
    match &token.word {
        Word::Name(there) => there.as_slice() == name,
        _ => false,
    }
}

/// Whether it is this mark.
pub fn is_mark(token: &Token, mark: Mark) -> bool
    ensures { IsTrue result ↔ (token.now.word ≡ MarkWord mark) }
{
    match &token.word {
        Word::Mark(there) => *there == mark,
        _ => false,
    }
}

/// The name that it says.
pub fn name_in(token: &Token) -> Option<&Name>
    ensures { MatchOption result
        ((name : List ℕ) → token.now.word ≡ NameWord name → ⊥)
        (λ name. token.now.word ≡ NameWord name.now) }
{
    match &token.word {
        Word::Name(name) => Some(name),
        _ => None,
    }
}

/// The number that it says.
pub fn number_in(token: &Token) -> Option<u32>
    ensures { MatchOption result
        ((number : ℕ) → token.now.word ≡ NumberWord number → ⊥)
        (λ number. token.now.word ≡ NumberWord number) }
{
    match &token.word {
        Word::Number(number) => Some(*number),
        _ => None,
    }
}

/// The names that two tokens say.
pub fn names_in<'a>(first: &'a Token, second: &'a Token) -> Option<(&'a Name, &'a Name)>
    ensures { MatchOption result
        ((m n : List ℕ) → first.now.word ≡ NameWord m → second.now.word ≡ NameWord n → ⊥)
        (λ found. (first.now.word ≡ NameWord found.0.now) × (second.now.word ≡ NameWord found.1.now)) }
{
    Some((name_in(first)?, name_in(second)?))
}

/// The name that the first token says, and the number that the second says.
pub fn name_and_number<'a>(first: &'a Token, second: &Token) -> Option<(&'a Name, u32)>
    ensures { MatchOption result
        ((m : List ℕ) (n : ℕ) → first.now.word ≡ NameWord m → second.now.word ≡ NumberWord n → ⊥)
        (λ found. (first.now.word ≡ NameWord found.0.now) × (second.now.word ≡ NumberWord found.1)) }
{
    Some((name_in(first)?, number_in(second)?))
}

/// The place of the token k, and that of a text's first byte where there is none.
pub fn place_in(tokens: &[Token], k: usize) -> Place
    ensures { result ≡ place_value tokens.now k }
{
    match tokens.get(k) {
        Some(token) => token.place,
        None => Place::FIRST,
    }
}
