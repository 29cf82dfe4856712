//! Reads.
ghost use Rattle.std.specs.Prelude.{◌≡◌, length};
ghost use Rattle.sl_base.specs.declared.mark.Mark.TheVariants as m;
ghost use Rattle.sl_grammar.specs.Means.Steps.{Reads, is_mark};
ghost use Rattle.sl_expressions.specs.Means.EffectViews.{flat, tall_read};
ghost use Rattle.sl_expressions.specs.Means.Reader as spec;

use sl_base::{Items, Mark};
use sl_grammar::{Fault, Tokens};
use sl_syntax::{Identifier, Read};
use std::alloc::Global;

/// `std::cin >> x >> y`
#[tactic(auto, unfolding(crate::specs::Means::Reader::read))]
pub fn read(alloc: Global, tokens: &mut Tokens<'_>, depth_left: usize) -> Result<Read, Fault>
    ensures { Reads tall_read (spec.read depth_left tokens.old) result tokens.new }
{
    if depth_left == 0 {
        return Err(tokens.refuse());
    }
    let place = tokens.place();
    tokens.skip();
    let first = shifted_name(tokens)?;
    let mut variables = Items::new(alloc);
    variables.push(first)?;
    let variables = variables_behind(tokens, variables)?;
    Ok(Read { place, variables })
}

// The others of a read, behind those that are there.
#[tactic(auto, unfolding(crate::specs::Means::Reader::repeat))]
fn variables_behind(
    tokens: &mut Tokens<'_>,
    mut variables: Items<Identifier>,
) -> Result<Items<Identifier>, Fault>
    ensures { Reads flat
        (spec.repeat (is_mark m.ShiftRight) spec.shifted_name (length tokens.old) (flat variables) tokens.old)
        result tokens.new }
{
    for _turn in 0..tokens.left() {
        if !tokens.sees(Mark::ShiftRight) {
            return Ok(variables);
        }
        let variable = shifted_name(tokens)?;
        variables.push(variable)?;
    }
    if tokens.sees(Mark::ShiftRight) {
        return Err(tokens.refuse());
    }
    Ok(variables)
}

// `>> x`
#[tactic(auto, unfolding(crate::specs::Means::Reader::shifted_name))]
fn shifted_name(tokens: &mut Tokens<'_>) -> Result<Identifier, Fault>
    ensures { Reads flat (spec.shifted_name tokens.old) result tokens.new }
{
    tokens.mark(Mark::ShiftRight)?;
    let variable = tokens.identifier()?;
    Ok(variable)
}
