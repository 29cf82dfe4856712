//! Prints.
ghost use Rattle.std.specs.Prelude.{◌≡◌, length};
ghost use Rattle.sl_base.specs.declared.mark.Mark.TheVariants as m;
ghost use Rattle.sl_grammar.specs.Means.Steps.{Reads, is_mark, kind_at};
ghost use Rattle.sl_grammar.specs.Means.Effects as steps;
ghost use Rattle.sl_expressions.specs.Means.EffectViews.{tall_out, tall_outs, tall_print};
ghost use Rattle.sl_expressions.specs.Means.Reader as spec;

use crate::expression::expr;
use sl_base::Mark;
use sl_grammar::{Fault, Tokens};
use sl_syntax::{Out, Print, TokenKind};
use std::alloc::Global;

/// `std::cout << x << y`
#[tactic(auto, using(crate::proofs::Heights::one_alone), unfolding(crate::specs::Means::Reader::print))]
pub fn print(alloc: Global, tokens: &mut Tokens<'_>, depth_left: usize) -> Result<Print, Fault>
    ensures { Reads tall_print (spec.print depth_left tokens.old) result tokens.new }
{
    if depth_left == 0 {
        return Err(tokens.refuse());
    }
    let place = tokens.place();
    tokens.skip();
    let first = shifted_out(alloc, tokens, depth_left)?;
    let mut items = Vec::new(alloc);
    items.push(first)?;
    let items = outs_behind(alloc, tokens, depth_left, items)?;
    Ok(Print { place, items })
}

// The others of a print, behind those that are there.
#[tactic(auto, unfolding(crate::specs::Means::Reader::repeat))]
fn outs_behind(
    alloc: Global,
    tokens: &mut Tokens<'_>,
    depth_left: usize,
    mut items: Vec<Out>,
) -> Result<Vec<Out>, Fault>
    ensures { Reads tall_outs
        (spec.repeat (is_mark m.ShiftLeft) (spec.shifted_out depth_left) (length tokens.old) (tall_outs items)
        tokens.old)
        result tokens.new }
{
    for _turn in 0..tokens.left() {
        if !tokens.sees(Mark::ShiftLeft) {
            return Ok(items);
        }
        let item = shifted_out(alloc, tokens, depth_left)?;
        items.push(item)?;
    }
    if tokens.sees(Mark::ShiftLeft) {
        return Err(tokens.refuse());
    }
    Ok(items)
}

// `<< x`, which is less high than the number.
#[tactic(auto, unfolding(crate::specs::Means::Reader::shifted_out))]
fn shifted_out(alloc: Global, tokens: &mut Tokens<'_>, depth_left: usize) -> Result<Out, Fault>
    ensures { Reads tall_out (spec.shifted_out depth_left tokens.old) result tokens.new }
{
    tokens.mark(Mark::ShiftLeft)?;
    out(alloc, tokens, depth_left)
}

// What is put out.
fn out(alloc: Global, tokens: &mut Tokens<'_>, depth_left: usize) -> Result<Out, Fault>
    ensures { Reads tall_out (steps.out_by depth_left (kind_at tokens.old) tokens.old) result tokens.new }
{
    match tokens.kind() {
        TokenKind::Text => {
            let place = tokens.place();
            let text = tokens.text(alloc)?;
            tokens.skip();
            Ok(Out::Text { place, text })
        }
        TokenKind::EndLine => {
            let place = tokens.place();
            tokens.skip();
            Ok(Out::EndLine { place })
        }
        _ => {
            let value = expr(alloc, tokens, depth_left, 5)?;
            Ok(Out::Value(value))
        }
    }
}
