//! Effects, which are reads, prints, assignments and values, and conditions. None is higher than the depth that is left
//! for it.
ghost use Rattle.std.specs.Prelude.{◌≡◌, ◌≤◌, ◌<◌};
ghost use Rattle.sl_base.specs.declared.limits.TheConstants.{TREE_DEPTH};
ghost use Rattle.sl_syntax.specs.declared.token_kind.TokenKind.TheVariants.{End};
ghost use Rattle.sl_syntax.specs.Depth.{height};
ghost use Rattle.sl_syntax.specs.TreeView.{expr_of};
ghost use Rattle.sl_grammar.specs.Means.Steps.{Reads};
ghost use Rattle.sl_grammar.specs.Means.Effects as steps;
ghost use Rattle.sl_expressions.specs.Means.EffectViews.{tall_cond, tall_effect};
ghost use Rattle.sl_expressions.specs.Means.Nests.{tall_expr};
ghost use Rattle.sl_expressions.specs.Means.Reader as spec;

mod printing;
mod reading;

use crate::effect::printing::print;
use crate::effect::reading::read;
use crate::expression::{expr, expr_and_height};
use sl_base::Mark;
use sl_grammar::{Fault, Tokens, assignment_of};
use sl_syntax::{Cond, Effect, Expr, TokenKind};
use std::alloc::Global;

/// What is done for its effect.
#[tactic(auto, unfolding(crate::specs::Means::Reader::effect))]
pub fn effect(alloc: Global, tokens: &mut Tokens<'_>, depth_left: usize) -> Result<Effect, Fault>
    requires small { depth_left ≤ TREE_DEPTH }
    ensures { Reads tall_effect (spec.effect depth_left tokens.old) result tokens.new }
{
    match tokens.kind() {
        TokenKind::Input => {
            let read = read(alloc, tokens, depth_left)?;
            Ok(Effect::Read(read))
        }
        TokenKind::Output => {
            let print = print(alloc, tokens, depth_left)?;
            Ok(Effect::Print(print))
        }
        _ => {
            let left = expr_and_height(alloc, tokens, depth_left + 1, 1)?;
            assigned(alloc, tokens, depth_left, left)
        }
    }
}

// A left side, or a whole effect.
#[tactic(auto, unfolding(crate::specs::Means::Reader::assigned))]
fn assigned(
    alloc: Global,
    tokens: &mut Tokens<'_>,
    depth_left: usize,
    left: (Expr, usize),
) -> Result<Effect, Fault>
    requires size { left.1 ≡ height (expr_of left.0) }
    ensures { Reads tall_effect (spec.assigned depth_left (tall_expr left) tokens.old) result tokens.new }
{
    let (left, height) = left;
    match assignment_of(tokens.kind()) {
        Some(operator) => {
            if height >= depth_left {
                return Err(tokens.refuse());
            }
            let place = tokens.place();
            tokens.skip();
            let right = expr(alloc, tokens, depth_left, 1)?;
            Ok(Effect::Assign {
                left,
                operator,
                place,
                right,
            })
        }
        None => Ok(Effect::Value(left)),
    }
}

/// What is tested.
#[tactic(auto, unfolding(crate::specs::Means::Reader::cond))]
pub fn cond(alloc: Global, tokens: &mut Tokens<'_>, depth_left: usize) -> Result<Cond, Fault>
    requires small { depth_left ≤ TREE_DEPTH }
    ensures { Reads tall_cond (spec.cond depth_left tokens.old) result tokens.new }
{
    match tokens.kind() {
        TokenKind::Input => {
            let read = read(alloc, tokens, depth_left)?;
            Ok(Cond::Read(read))
        }
        _ => tested(alloc, tokens, depth_left),
    }
}

// What is tested where the first word is not `std::cin`; any such word stands for all of them.
fn tested(alloc: Global, tokens: &mut Tokens<'_>, depth_left: usize) -> Result<Cond, Fault>
    requires small { depth_left ≤ TREE_DEPTH }
    ensures { Reads tall_cond (steps.cond_by depth_left End tokens.old) result tokens.new }
{
    if depth_left > 1 && tokens.sees_failed_read() {
        return no_read(alloc, tokens, depth_left);
    }
    let value = expr(alloc, tokens, depth_left + 1, 1)?;
    Ok(Cond::Value(value))
}

// `!(std::cin >> x)`
#[tactic(auto, unfolding(crate::specs::Means::Reader::no_read))]
fn no_read(alloc: Global, tokens: &mut Tokens<'_>, depth_left: usize) -> Result<Cond, Fault>
    requires some { 1 < depth_left }
    ensures { Reads tall_cond (spec.no_read depth_left tokens.old) result tokens.new }
{
    let place = tokens.place();
    tokens.skip();
    tokens.mark(Mark::LeftParenthesis)?;
    let read = read(alloc, tokens, depth_left)?;
    tokens.mark(Mark::RightParenthesis)?;
    Ok(Cond::NotRead { place, read })
}
