//! How the operators of an expression group.

use crate::kinds::groups::operator::{binary_text, postfix_text, prefix_text, selector_text};
use crate::kinds::word::name_text;
use sl_syntax::Expr;
use std::alloc::{AllocError, Global};

/// An expression with a pair of brackets around each operator and its operands, and around each piece and all before
/// it.
#[cycle(grouping)]
pub fn grouped(alloc: Global, x: &Expr) -> Result<String, AllocError> {
    let head = head(alloc, x)?;
    match x {
        Expr::Number { .. } | Expr::Truth { .. } | Expr::Name(_) => Ok(head),
        Expr::Call { arguments, .. } | Expr::LibraryCall { arguments, .. } => {
            grouped_call(alloc, &head, arguments)
        }
        Expr::Parentheses { inner, .. } => format!(in alloc; "({})", grouped(alloc, inner)?),
        Expr::Prefix { operand, .. } => format!(in alloc; "[{head}{}]", grouped(alloc, operand)?),
        Expr::Postfix { operand, .. } => format!(in alloc; "[{}{head}]", grouped(alloc, operand)?),
        Expr::Member { object, .. } => format!(in alloc; "[{}{head}]", grouped(alloc, object)?),
        Expr::Binary { left, right, .. } => {
            let left = grouped(alloc, left)?;
            let right = grouped(alloc, right)?;
            format!(in alloc; "[{left}{head}{right}]")
        }
        Expr::Index { object, index, .. } => {
            let object = grouped(alloc, object)?;
            let index = grouped(alloc, index)?;
            format!(in alloc; "[{object}[{index}]]")
        }
        Expr::MemberCall {
            object,
            arguments,
            ..
        } => {
            let object = grouped(alloc, object)?;
            let call = grouped_call(alloc, &head, arguments)?;
            format!(in alloc; "[{object}{call}]")
        }
    }
}

// A call with its arguments.
#[cycle(grouping)]
fn grouped_call(alloc: Global, head: &str, arguments: &[Expr]) -> Result<String, AllocError> {
    let mut all = format!(in alloc; "{head}(")?;
    for (i, x) in arguments.iter().enumerate() {
        if i > 0 {
            all.push_str(",")?;
        }
        all.push_str(&grouped(alloc, x)?)?;
    }
    all.push_str(")")?;
    Ok(all)
}

// What an expression adds to the expressions in it: its operator or its name.
fn head(alloc: Global, x: &Expr) -> Result<String, AllocError> {
    match x {
        Expr::Number { value, .. } => format!(in alloc; "{value}"),
        Expr::Truth { value, .. } => format!(in alloc; "{value}"),
        Expr::Name(name) => String::from_str(alloc, name_text(&name.name)),
        Expr::Call { function, .. } => String::from_str(alloc, name_text(&function.name)),
        Expr::LibraryCall { function, .. } => {
            format!(in alloc; "std::{}", name_text(&function.name))
        }
        Expr::Prefix { operator, .. } => String::from_str(alloc, prefix_text(*operator)),
        Expr::Binary { operator, .. } => String::from_str(alloc, binary_text(*operator)),
        Expr::Postfix { operator, .. } => String::from_str(alloc, postfix_text(*operator)),
        Expr::MemberCall { function, .. } => { format!(in alloc; ".{}", name_text(&function.name)) }
        Expr::Member {
            selector,
            member,
            ..
        } => { format!(in alloc; "{}{}", selector_text(*selector), name_text(&member.name)) }
        Expr::Parentheses { .. } | Expr::Index { .. } => Ok(String::new(alloc)),
    }
}
