//! The operators that words are, and how tightly they bind.
ghost use Rattle.std.specs.Prelude.{◌≡◌, ◌≤◌};
ghost use Rattle.sl_syntax.specs.Shaped as shaped;
ghost use Rattle.sl_grammar.specs.Means.Effects as effects;
ghost use Rattle.sl_grammar.specs.Means.Expressions as spec;

use sl_base::Mark;
use sl_syntax::{Arithmetic, Assignment, BinaryOperator, Comparison, TokenKind};

/// How tightly an operator binds, from 1 to 6.
pub fn binary_level(operator: BinaryOperator) -> u8
    ensures value { result ≡ shaped.binary_level operator }
    ensures small { result ≤ 6 }
{
    match operator {
        BinaryOperator::Or => 1,
        BinaryOperator::And => 2,
        BinaryOperator::Comparison(Comparison::Equal | Comparison::NotEqual) => 3,
        BinaryOperator::Comparison(_) => 4,
        BinaryOperator::Arithmetic(Arithmetic::Add | Arithmetic::Subtract) => 5,
        BinaryOperator::Arithmetic(_) => 6,
    }
}

/// The operator that a word is between two operands.
pub fn infix_of(kind: TokenKind) -> Option<BinaryOperator>
    ensures { result ≡ spec.infix_of kind }
{
    match kind {
        TokenKind::Mark(mark) => infix_mark(mark),
        _ => None,
    }
}

fn infix_mark(mark: Mark) -> Option<BinaryOperator>
    ensures { result ≡ spec.infix_of (TokenKind.Mark mark) }
{
    match mark {
        Mark::OrOr => Some(BinaryOperator::Or),
        Mark::AndAnd => Some(BinaryOperator::And),
        Mark::EqualEqual => Some(BinaryOperator::Comparison(Comparison::Equal)),
        Mark::NotEqual => Some(BinaryOperator::Comparison(Comparison::NotEqual)),
        Mark::Less => Some(BinaryOperator::Comparison(Comparison::Less)),
        Mark::LessEqual => Some(BinaryOperator::Comparison(Comparison::LessEqual)),
        Mark::Greater => Some(BinaryOperator::Comparison(Comparison::Greater)),
        Mark::GreaterEqual => Some(BinaryOperator::Comparison(Comparison::GreaterEqual)),
        Mark::Plus => Some(BinaryOperator::Arithmetic(Arithmetic::Add)),
        Mark::Minus => Some(BinaryOperator::Arithmetic(Arithmetic::Subtract)),
        Mark::Star => Some(BinaryOperator::Arithmetic(Arithmetic::Multiply)),
        Mark::Slash => Some(BinaryOperator::Arithmetic(Arithmetic::Divide)),
        Mark::Percent => Some(BinaryOperator::Arithmetic(Arithmetic::Remainder)),
        _ => None,
    }
}

// How tightly a piece behind an operand binds that begins with this word, and 0 where none does.
fn piece_level(kind: TokenKind) -> u8
    ensures { result ≡ spec.piece_level kind }
{
    match kind {
        TokenKind::Mark(
            Mark::PlusPlus | Mark::MinusMinus | Mark::LeftBracket | Mark::Dot | Mark::Arrow,
        ) => 8,
        _ => 0,
    }
}

/// How tightly a word that goes on with an expression binds, and 0 where it does not.
pub fn goes_on(kind: TokenKind) -> u8
    ensures { result ≡ spec.goes_on kind }
{
    match infix_of(kind) {
        Some(operator) => binary_level(operator),
        None => piece_level(kind),
    }
}

/// The operator of an assignment that a word is.
pub fn assignment_of(kind: TokenKind) -> Option<Assignment>
    ensures { result ≡ effects.assignment_of 0 kind }
{
    match kind {
        TokenKind::Mark(Mark::Equal) => Some(Assignment::Set),
        TokenKind::Mark(Mark::PlusEqual) => Some(Assignment::Update(Arithmetic::Add)),
        TokenKind::Mark(Mark::MinusEqual) => Some(Assignment::Update(Arithmetic::Subtract)),
        TokenKind::Mark(Mark::StarEqual) => Some(Assignment::Update(Arithmetic::Multiply)),
        TokenKind::Mark(Mark::SlashEqual) => Some(Assignment::Update(Arithmetic::Divide)),
        TokenKind::Mark(Mark::PercentEqual) => Some(Assignment::Update(Arithmetic::Remainder)),
        _ => None,
    }
}
