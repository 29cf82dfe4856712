//! A cursor over tokens.
ghost use Rattle.std.specs.Prelude.{◌≡◌, length, drop, IfOk};
ghost use Rattle.sl_grammar.specs.Means.Steps as spec;
ghost use Rattle.sl_grammar.specs.Means.Steps.{Reads};
ghost use Rattle.sl_grammar.specs.Means.Declarations as declarations;
ghost use Rattle.sl_grammar.specs.Means.Statements as statements;
ghost use Rattle.sl_grammar.specs.Means.Effects as effects;

use crate::fault::Fault;
use sl_base::{Items, Mark, Name, Place, Scalar, Token, Word};
use sl_syntax::{Identifier, TokenKind};
use std::alloc::{AllocError, Global};
use std::marker::Model;

/// The tokens that are left. A contract sees their list.
#[derive(Drop)]
pub struct Tokens<'a> {
    rest: &'a [Token],
}

impl<'a> Model for Tokens<'a> {
    ghost use Rattle.std.specs.Prelude.{List};
    ghost use Rattle.sl_base.specs.declared.token.Token.{Token};

    ghost Value = { List Token };

    ghost view = { λ t. t.rest.now };
}

impl<'a> Tokens<'a> {
    pub fn new(tokens: &'a [Token]) -> Tokens<'a>
        ensures { result ≡ tokens.now }
    {
        Tokens { rest: tokens }
    }

    /// How many are left.
    pub fn left(&self) -> usize
        ensures { result ≡ length self.now }
    {
        self.rest.len()
    }

    /// What the next word is to the grammar.
    pub fn kind(&self) -> TokenKind
        ensures { result ≡ spec.kind_at self.now }
    {
        match self.rest {
            [token, ..] => TokenKind::of(&token.word),
            [] => TokenKind::End,
        }
    }

    // What the word behind so many others is to the grammar.
    fn kind_behind(&self, count: usize) -> TokenKind
        ensures { result ≡ spec.kind_at (drop count self.now) }
    {
        match self.rest.get(count) {
            Some(token) => TokenKind::of(&token.word),
            None => TokenKind::End,
        }
    }

    /// The place of the next token.
    pub fn place(&self) -> Place
        ensures { result ≡ spec.here self.now }
    {
        match self.rest {
            [token, ..] => token.place,
            [] => Place::FIRST,
        }
    }

    pub fn skip(&mut self)
        ensures { self.new ≡ drop 1 self.old }
    {
        if let [_, rest @ ..] = self.rest {
            self.rest = rest;
        }
    }

    /// The fault where the next token can't stand here.
    pub fn refuse(&self) -> Fault
        ensures { result ≡ spec.refusal self.now }
    {
        Fault::Grammar(self.rest.len())
    }

    /// Whether the next word is this mark.
    pub fn sees(&self, mark: Mark) -> bool
        ensures { result ≡ spec.is_mark mark (spec.kind_at self.now) }
    {
        is_mark(mark, self.kind())
    }

    /// Whether the next word is `else`.
    pub fn sees_else(&self) -> bool
        ensures { result ≡ statements.is_else (spec.kind_at self.now) }
    {
        match self.kind() {
            TokenKind::Else => true,
            _ => false,
        }
    }

    /// Whether no token is left.
    pub fn sees_end(&self) -> bool
        ensures { result ≡ statements.is_end (spec.kind_at self.now) }
    {
        match self.kind() {
            TokenKind::End => true,
            _ => false,
        }
    }

    /// Whether `!(std::cin` begins here.
    pub fn sees_failed_read(&self) -> bool
        ensures { result ≡ effects.begins_no_read 0 self.now }
    {
        self.sees(Mark::Not)
            && is_mark(Mark::LeftParenthesis, self.kind_behind(1))
            && is_input(self.kind_behind(2))
    }

    /// Whether the type of a reference begins here: `const`, or `int` or `auto` before a `&`.
    pub fn sees_reference(&self) -> bool
        ensures { result ≡ declarations.begins_reference self.now }
    {
        match self.kind() {
            TokenKind::Const => true,
            TokenKind::Scalar(Scalar::Int) => is_mark(Mark::And, self.kind_behind(1)),
            TokenKind::Auto => is_mark(Mark::And, self.kind_behind(1)),
            _ => false,
        }
    }

    /// Takes this mark, and gives its place.
    #[tactic(auto, unfolding(crate::specs::Means::Steps::mark))]
    pub fn mark(&mut self, mark: Mark) -> Result<Place, Fault>
        ensures { Reads (λ p. p) (spec.mark mark self.old) result self.new }
    {
        if self.sees(mark) {
            let place = self.place();
            self.skip();
            Ok(place)
        } else {
            Err(self.refuse())
        }
    }

    /// Takes a name.
    #[tactic(auto, unfolding(crate::specs::Means::Steps::identifier))]
    pub fn identifier(&mut self) -> Result<Identifier, Fault>
        ensures { Reads (λ x. x) (spec.identifier self.old) result self.new }
    {
        match self.rest {
            [token, rest @ ..] => match &token.word {
                Word::Name(name) => {
                    self.rest = rest;
                    Ok(identifier_at(name, token.place))
                }
                _ => Err(self.refuse()),
            },
            [] => Err(self.refuse()),
        }
    }

    /// Takes the name of a lib, which is one of a function where the word's kind says so.
    #[tactic(auto, unfolding(crate::specs::Means::Steps::library))]
    pub fn library(&mut self) -> Result<Identifier, Fault>
        ensures { Reads (λ x. x) (spec.library self.old) result self.new }
    {
        match self.rest {
            [token, rest @ ..] => match &token.word {
                Word::Lib(name) => {
                    self.rest = rest;
                    Ok(identifier_at(name, token.place))
                }
                _ => Err(self.refuse()),
            },
            [] => Err(self.refuse()),
        }
    }

    /// The number that stands next, and 0 where none does.
    pub fn number(&self) -> u32
        ensures { result ≡ spec.number_at self.now }
    {
        match self.rest {
            [token, ..] => match &token.word {
                Word::Number(number) => *number,
                _ => 0,
            },
            [] => 0,
        }
    }

    /// The bytes of the text that stands next, and none where none does.
    pub fn text(&self, alloc: Global) -> Result<Items<u8>, AllocError>
        ensures { IfOk result (λ text. text ≡ spec.text_at self.now) }
    {
        match self.rest {
            [token, ..] => match &token.word {
                Word::Text(text) => Items::from_slice(alloc, text.as_slice()),
                _ => Ok(Items::new(alloc)),
            },
            [] => Ok(Items::new(alloc)),
        }
    }
}

// A name with its place.
fn identifier_at(name: &Name, place: Place) -> Identifier
    ensures { (result.name ≡ name.now) × (result.place ≡ place) }
{
    Identifier {
        name: Name::new(name.as_slice()),
        place,
    }
}

fn is_mark(mark: Mark, kind: TokenKind) -> bool
    ensures { result ≡ spec.is_mark mark kind }
{
    match kind {
        TokenKind::Mark(next) => next == mark,
        _ => false,
    }
}

// The word is `std::cin`.
fn is_input(kind: TokenKind) -> bool
    ensures { result ≡ effects.is_input kind }
{
    match kind {
        TokenKind::Input => true,
        _ => false,
    }
}
