//! What a word is to the grammar.
ghost use Rattle.std.specs.Prelude.{◌≡◌, map};
ghost use Rattle.sl_syntax.specs.TokenKinds as spec;

use sl_base::{Form, Mark, Scalar, Word};

/// What a word is to the grammar.
#[derive(Clone, Copy)]
pub enum TokenKind {
    /// No word is left.
    End,
    Name,
    Number,
    Text,
    /// A lib that the grammar doesn't name: a function of the library.
    Library,
    /// `int`, `bool`, `std::size_t`, `std::ptrdiff_t`
    Scalar(Scalar),
    /// `std::vector` and the others
    Container(Form),
    /// `true`, `false`
    Truth(bool),
    Void,
    Const,
    Auto,
    If,
    Else,
    While,
    For,
    Break,
    Continue,
    Return,
    /// `std::cin`
    Input,
    /// `std::cout`
    Output,
    /// `std::endl`
    EndLine,
    Mark(Mark),
    /// A key that the grammar doesn't name.
    Other,
}

/// The keys of the grammar.
const KEYS: [(&str, TokenKind); 14] = [
    ("int", TokenKind::Scalar(Scalar::Int)),
    ("bool", TokenKind::Scalar(Scalar::Bool)),
    ("true", TokenKind::Truth(true)),
    ("false", TokenKind::Truth(false)),
    ("void", TokenKind::Void),
    ("const", TokenKind::Const),
    ("auto", TokenKind::Auto),
    ("if", TokenKind::If),
    ("else", TokenKind::Else),
    ("while", TokenKind::While),
    ("for", TokenKind::For),
    ("break", TokenKind::Break),
    ("continue", TokenKind::Continue),
    ("return", TokenKind::Return),
];

/// The libs that the grammar names.
const LIBS: [(&str, TokenKind); 14] = [
    ("size_t", TokenKind::Scalar(Scalar::Size)),
    ("ptrdiff_t", TokenKind::Scalar(Scalar::Diff)),
    ("vector", TokenKind::Container(Form::Vector)),
    ("deque", TokenKind::Container(Form::Deque)),
    ("list", TokenKind::Container(Form::List)),
    ("set", TokenKind::Container(Form::Set)),
    ("map", TokenKind::Container(Form::Map)),
    ("unordered_set", TokenKind::Container(Form::HashSet)),
    ("unordered_map", TokenKind::Container(Form::HashMap)),
    ("multiset", TokenKind::Container(Form::MultiSet)),
    ("multimap", TokenKind::Container(Form::MultiMap)),
    ("cin", TokenKind::Input),
    ("cout", TokenKind::Output),
    ("endl", TokenKind::EndLine),
];

/// The kind in the first row with these bytes, and where there is none another.
fn find_kind(rows: &[(&str, TokenKind)], instead: TokenKind, bytes: &[u8]) -> TokenKind
    ensures { result ≡ spec.kind_in (map (λ m. (m.0.now, m.1)) rows.now) instead bytes.now }
{
    for (text, kind) in rows {
        if text.as_bytes() == bytes {
            return *kind;
        }
    }
    instead
}

impl TokenKind {
    /// What this word is to the grammar.
    pub fn of(word: &Word) -> TokenKind
        ensures { result ≡ spec.kind_of word.now }
    {
        match word {
            Word::Name(_) => TokenKind::Name,
            Word::Lib(name) => find_kind(&LIBS, TokenKind::Library, name.as_slice()),
            Word::Key(name) => find_kind(&KEYS, TokenKind::Other, name.as_slice()),
            Word::Number(_) => TokenKind::Number,
            Word::Text(_) => TokenKind::Text,
            Word::Mark(mark) => TokenKind::Mark(*mark),
        }
    }
}
