ghost use Rattle.std.specs.Prelude.{◌≡◌, ◌<◌, ◌≤◌, ◌+◌, length, take, option_map, map, Some, IfSome};
ghost use Rattle.sl_base.specs.Marks as base;
ghost use Rattle.sl_base.specs.Pieces.{bad_byte, mark_piece};
ghost use Rattle.sl_base.specs.declared.limits.TheConstants.{TEXT_BYTES};
ghost use Rattle.sl_lexer.specs.Means.Answers.{answer_of};
ghost use Rattle.sl_lexer.specs.Means.Front as spec;

use crate::LexErr;
use crate::front::Front;
use sl_base::{Mark, Word};

/// The marks.
const MARKS: [(&str, Mark); 37] = [
    ("{", Mark::LeftBrace),
    ("}", Mark::RightBrace),
    ("(", Mark::LeftParenthesis),
    (")", Mark::RightParenthesis),
    ("[", Mark::LeftBracket),
    ("]", Mark::RightBracket),
    ("<", Mark::Less),
    (">", Mark::Greater),
    ("<=", Mark::LessEqual),
    (">=", Mark::GreaterEqual),
    ("==", Mark::EqualEqual),
    ("!=", Mark::NotEqual),
    ("=", Mark::Equal),
    ("+=", Mark::PlusEqual),
    ("-=", Mark::MinusEqual),
    ("*=", Mark::StarEqual),
    ("/=", Mark::SlashEqual),
    ("%=", Mark::PercentEqual),
    ("+", Mark::Plus),
    ("-", Mark::Minus),
    ("*", Mark::Star),
    ("/", Mark::Slash),
    ("%", Mark::Percent),
    ("++", Mark::PlusPlus),
    ("--", Mark::MinusMinus),
    ("!", Mark::Not),
    ("&&", Mark::AndAnd),
    ("||", Mark::OrOr),
    ("&", Mark::And),
    (",", Mark::Comma),
    (";", Mark::Semicolon),
    (":", Mark::Colon),
    ("::", Mark::ColonColon),
    (".", Mark::Dot),
    ("->", Mark::Arrow),
    ("<<", Mark::ShiftLeft),
    (">>", Mark::ShiftRight),
];

/// The mark of the first row with these bytes.
fn find_mark(rows: &[(&str, Mark)], bytes: &[u8]) -> Option<Mark>
    ensures { result ≡ base.mark_in (map (λ m. (m.0.now, m.1)) rows.now) bytes.now }
{
    for (text, mark) in rows {
        if text.as_bytes() == bytes {
            return Some(*mark);
        }
    }
    None
}

/// The mark that these bytes write.
fn mark_of(bytes: &[u8]) -> Option<Mark>
    ensures { result ≡ base.mark_of bytes.now }
{
    find_mark(&MARKS, bytes)
}

/// The first bytes of the rest, or all of it.
fn first_bytes(n: usize, rest: &[u8]) -> &[u8]
    ensures { result.now ≡ take n rest.now }
{
    if n < rest.len() { &rest[..n] } else { rest }
}

/// The longest mark at the front, and how many bytes it has.
fn mark_at(rest: &[u8]) -> Option<(Mark, usize)>
    requires { 0 < length rest.now }
    ensures mark { IfSome result (λ m. base.mark_of (take m.1 rest.now) ≡ Some m.0) }
    ensures len { option_map (λ m. m.1) result ≡ spec.mark_len rest.now }
{
    let two = first_bytes(2, rest);
    if let Some(mark) = mark_of(two) {
        return Some((mark, two.len()));
    }
    Some((mark_of(&rest[..1])?, 1))
}

/// The mark at the front of the rest, which no comment begins.
pub fn mark_front(rest: &[u8], from: usize) -> Result<Front, LexErr>
    requires some { 0 < length rest.now }
    requires short { from + length rest.now ≤ TEXT_BYTES }
    ensures { result ≡ answer_of from rest.now
        (spec.front_from bad_byte rest.now (spec.as_piece mark_piece (spec.mark_len rest.now))) }
{
    match mark_at(rest) {
        Some(_) if rest.starts_with(b"/*") => Err(LexErr::OpenComment {
            offset: from as u32,
        }),
        Some((mark, len)) => Ok(Front {
            word: Some(Word::Mark(mark)),
            len,
        }),
        None => Err(LexErr::BadByte {
            offset: from as u32,
        }),
    }
}
