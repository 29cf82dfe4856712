//! Expressions, by how tightly operators bind.
ghost use Rattle.std.specs.Prelude.{◌≡◌, ◌<◌, ◌≤◌, IfOk};
ghost use Rattle.sl_syntax.specs.Depth.{height};
ghost use Rattle.sl_syntax.specs.TreeView.{expr_of};
ghost use Rattle.sl_grammar.specs.Means.Steps.{Reads};
ghost use Rattle.sl_expressions.specs.Means.Nests.{tall_expr, whole_expr};
ghost use Rattle.sl_expressions.specs.Means.Reader as spec;

pub mod list;
mod nested;
mod operand;
mod operation;

use crate::expression::nested::Nested;
use sl_grammar::{Fault, Tokens};
use sl_syntax::Expr;
use std::alloc::Global;

/// An expression that is less high than the depth, and whose operators bind at least so tightly.
pub fn expr(alloc: Global, tokens: &mut Tokens<'_>, depth: usize, least: u8) -> Result<Expr, Fault>
    requires some { 1 ≤ least }
    requires small { least ≤ 7 }
    ensures { Reads whole_expr (spec.expr depth least tokens.old) result tokens.new }
{
    let (tree, _) = expr_and_height(alloc, tokens, depth, least)?;
    Ok(tree)
}

/// The same, and how high it is.
pub fn expr_and_height(
    alloc: Global,
    tokens: &mut Tokens<'_>,
    depth: usize,
    least: u8,
) -> Result<(Expr, usize), Fault>
    requires some { 1 ≤ least }
    requires small { least ≤ 7 }
    ensures reads { Reads tall_expr (spec.expr depth least tokens.old) result tokens.new }
    ensures low { IfOk result (λ x. x.1 < depth) }
    ensures size { IfOk result (λ x. x.1 ≡ height (expr_of x.0)) }
{
    nested_expr(alloc, tokens, depth, least)
}

// An expression, and the number that is to be its height. Each may stand in others.
fn nested_expr(
    alloc: Global,
    tokens: &mut Tokens<'_>,
    depth: usize,
    least: u8,
) -> Result<(Expr, usize), Fault>
    ensures reads { Reads tall_expr (spec.expr depth least tokens.old) result tokens.new }
    ensures low { IfOk result (λ x. x.1 < depth) }
{
    if depth == 0 {
        return Err(tokens.refuse());
    }
    Nested {
        alloc,
        depth_left: depth - 1,
        inner: nested_expr,
    }
    .from_operand(tokens, least)
}
