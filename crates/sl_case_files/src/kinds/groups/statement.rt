//! How statements stand in one another.

use crate::kinds::groups::expression::grouped;
use crate::kinds::groups::operator::update_text;
use sl_syntax::{Cond, Effect, Item, Stmt};
use std::alloc::{AllocError, Global};

/// An item of a block: a declaration as that word, a statement with brackets around each that stands in it.
#[cycle(nesting)]
pub fn item_text(alloc: Global, item: &Item) -> Result<String, AllocError> {
    match item {
        Item::Declaration(_) => String::from_str(alloc, "declaration"),
        Item::Statement(x) => nested(alloc, x),
    }
}

#[cycle(nesting)]
fn nested(alloc: Global, x: &Stmt) -> Result<String, AllocError> {
    match x {
        Stmt::If {
            cond,
            then,
            otherwise,
            ..
        } => {
            let cond = cond_text(alloc, cond)?;
            let then = nested(alloc, then)?;
            match otherwise {
                Some(otherwise) => {
                    let otherwise = nested(alloc, otherwise)?;
                    format!(in alloc; "if {cond} [{then}] else [{otherwise}]")
                }
                None => format!(in alloc; "if {cond} [{then}]"),
            }
        }
        Stmt::While { cond, body, .. } => {
            let cond = cond_text(alloc, cond)?;
            let body = nested(alloc, body)?;
            format!(in alloc; "while {cond} [{body}]")
        }
        Stmt::For { body, .. } | Stmt::RangeFor { body, .. } => {
            let body = nested(alloc, body)?;
            format!(in alloc; "for [{body}]")
        }
        Stmt::Block(block) => nested_items(alloc, &block.items),
        Stmt::Break { .. } => String::from_str(alloc, "break"),
        Stmt::Continue { .. } => String::from_str(alloc, "continue"),
        Stmt::Return { value: None, .. } => String::from_str(alloc, "return"),
        Stmt::Return { value: Some(x), .. } => format!(in alloc; "return {}", grouped(alloc, x)?),
        Stmt::Effect { effect, .. } => effect_text(alloc, effect),
    }
}

// The items of a block.
#[cycle(nesting)]
fn nested_items(alloc: Global, items: &[Item]) -> Result<String, AllocError> {
    let mut all = String::from_str(alloc, "{")?;
    for item in items {
        all.push_str(&item_text(alloc, item)?)?;
        all.push_str(";")?;
    }
    all.push_str("}")?;
    Ok(all)
}

// What is tested.
fn cond_text(alloc: Global, cond: &Cond) -> Result<String, AllocError> {
    match cond {
        Cond::Read(_) => String::from_str(alloc, "read"),
        Cond::NotRead { .. } => String::from_str(alloc, "not read"),
        Cond::Value(x) => grouped(alloc, x),
    }
}

// What is done for its effect.
fn effect_text(alloc: Global, effect: &Effect) -> Result<String, AllocError> {
    match effect {
        Effect::Read(_) => String::from_str(alloc, "read"),
        Effect::Print(_) => String::from_str(alloc, "print"),
        Effect::Value(x) => grouped(alloc, x),
        Effect::Assign {
            left,
            operator,
            right,
            ..
        } => {
            let left = grouped(alloc, left)?;
            let update = update_text(*operator);
            let right = grouped(alloc, right)?;
            format!(in alloc; "[{left}{update}={right}]")
        }
    }
}
