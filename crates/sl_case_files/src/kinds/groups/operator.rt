//! Operators as they are spelled.

use sl_syntax::{
    Arithmetic, Assignment, BinaryOperator, Comparison, PostfixOperator, PrefixOperator, Selector,
};

fn arithmetic_text(operator: Arithmetic) -> &'static str {
    match operator {
        Arithmetic::Add => "+",
        Arithmetic::Subtract => "-",
        Arithmetic::Multiply => "*",
        Arithmetic::Divide => "/",
        Arithmetic::Remainder => "%",
    }
}

fn comparison_text(operator: Comparison) -> &'static str {
    match operator {
        Comparison::Equal => "==",
        Comparison::NotEqual => "!=",
        Comparison::Less => "<",
        Comparison::LessEqual => "<=",
        Comparison::Greater => ">",
        Comparison::GreaterEqual => ">=",
    }
}

pub fn binary_text(operator: BinaryOperator) -> &'static str {
    match operator {
        BinaryOperator::Or => "||",
        BinaryOperator::And => "&&",
        BinaryOperator::Comparison(operator) => comparison_text(operator),
        BinaryOperator::Arithmetic(operator) => arithmetic_text(operator),
    }
}

pub fn prefix_text(operator: PrefixOperator) -> &'static str {
    match operator {
        PrefixOperator::Not => "!",
        PrefixOperator::Negate => "-",
        PrefixOperator::Dereference => "*",
        PrefixOperator::Increment => "++",
        PrefixOperator::Decrement => "--",
    }
}

pub fn postfix_text(operator: PostfixOperator) -> &'static str {
    match operator {
        PostfixOperator::Increment => "++",
        PostfixOperator::Decrement => "--",
    }
}

pub fn selector_text(selector: Selector) -> &'static str {
    match selector {
        Selector::Dot => ".",
        Selector::Arrow => "->",
    }
}

/// What an assignment has before its `=`.
pub fn update_text(operator: Assignment) -> &'static str {
    match operator {
        Assignment::Set => "",
        Assignment::Update(operator) => arithmetic_text(operator),
    }
}
