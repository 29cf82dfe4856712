//! The marks of operators.
ghost use Rattle.std.specs.Prelude.{◌≡◌};
ghost use Rattle.sl_syntax.specs.Written as spec;

use crate::operator::{
    Arithmetic, Assignment, BinaryOperator, Comparison, PostfixOperator, PrefixOperator, Selector,
};
use sl_base::Mark;

fn arithmetic_mark(operator: Arithmetic) -> Mark
    ensures { result ≡ spec.arithmetic_mark operator }
{
    match operator {
        Arithmetic::Add => Mark::Plus,
        Arithmetic::Subtract => Mark::Minus,
        Arithmetic::Multiply => Mark::Star,
        Arithmetic::Divide => Mark::Slash,
        Arithmetic::Remainder => Mark::Percent,
    }
}

fn comparison_mark(operator: Comparison) -> Mark
    ensures { result ≡ spec.comparison_mark operator }
{
    match operator {
        Comparison::Equal => Mark::EqualEqual,
        Comparison::NotEqual => Mark::NotEqual,
        Comparison::Less => Mark::Less,
        Comparison::LessEqual => Mark::LessEqual,
        Comparison::Greater => Mark::Greater,
        Comparison::GreaterEqual => Mark::GreaterEqual,
    }
}

pub fn binary_mark(operator: BinaryOperator) -> Mark
    ensures { result ≡ spec.binary_mark operator }
{
    match operator {
        BinaryOperator::Or => Mark::OrOr,
        BinaryOperator::And => Mark::AndAnd,
        BinaryOperator::Comparison(operator) => comparison_mark(operator),
        BinaryOperator::Arithmetic(operator) => arithmetic_mark(operator),
    }
}

pub fn prefix_mark(operator: PrefixOperator) -> Mark
    ensures { result ≡ spec.prefix_mark operator }
{
    match operator {
        PrefixOperator::Not => Mark::Not,
        PrefixOperator::Negate => Mark::Minus,
        PrefixOperator::Dereference => Mark::Star,
        PrefixOperator::Increment => Mark::PlusPlus,
        PrefixOperator::Decrement => Mark::MinusMinus,
    }
}

pub fn postfix_mark(operator: PostfixOperator) -> Mark
    ensures { result ≡ spec.postfix_mark operator }
{
    match operator {
        PostfixOperator::Increment => Mark::PlusPlus,
        PostfixOperator::Decrement => Mark::MinusMinus,
    }
}

pub fn selector_mark(selector: Selector) -> Mark
    ensures { result ≡ spec.selector_mark selector }
{
    match selector {
        Selector::Dot => Mark::Dot,
        Selector::Arrow => Mark::Arrow,
    }
}

pub fn assignment_mark(operator: Assignment) -> Mark
    ensures { result ≡ spec.assignment_mark operator }
{
    match operator {
        Assignment::Set => Mark::Equal,
        Assignment::Update(Arithmetic::Add) => Mark::PlusEqual,
        Assignment::Update(Arithmetic::Subtract) => Mark::MinusEqual,
        Assignment::Update(Arithmetic::Multiply) => Mark::StarEqual,
        Assignment::Update(Arithmetic::Divide) => Mark::SlashEqual,
        Assignment::Update(Arithmetic::Remainder) => Mark::PercentEqual,
    }
}
