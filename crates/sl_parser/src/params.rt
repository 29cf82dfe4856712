//! Parameters.
ghost use Rattle.std.specs.Prelude.{◌≡◌, length};
ghost use Rattle.sl_base.specs.declared.mark.Mark.TheVariants as m;
ghost use Rattle.sl_grammar.specs.Means.Steps.{Reads, is_mark, kind_at};
ghost use Rattle.sl_grammar.specs.Means.Declarations.{comma_param, container_by};
ghost use Rattle.sl_parser.specs.Means.DeclarationViews.{tall_param, tall_params};
ghost use Rattle.sl_parser.specs.Means.Reader as spec;

use crate::container::{container_type, iterator_behind};
use sl_base::{Mark, Place, Scalar};
use sl_grammar::{Fault, Tokens};
use sl_syntax::{ContainerType, Param, TokenKind};
use std::alloc::Global;

/// The parameters before a `)`.
#[tactic(auto, using(sl_expressions::proofs::Heights::one_alone), unfolding(crate::specs::Means::Reader::params))]
pub fn params(alloc: Global, tokens: &mut Tokens<'_>) -> Result<Vec<Param>, Fault>
    ensures { Reads tall_params (spec.params tokens.old) result tokens.new }
{
    let mut list = Vec::new(alloc);
    if tokens.sees(Mark::RightParenthesis) {
        return Ok(list);
    }
    let first = param(tokens)?;
    list.push(first)?;
    others(tokens, list)
}

// The parameters behind those that are there.
fn others(tokens: &mut Tokens<'_>, mut list: Vec<Param>) -> Result<Vec<Param>, Fault>
    ensures { Reads tall_params
        (spec.repeat (is_mark m.Comma) comma_param (length tokens.old) (tall_params list) tokens.old)
        result tokens.new }
{
    for _turn in 0..tokens.left() {
        if !tokens.sees(Mark::Comma) {
            return Ok(list);
        }
        let next = other(tokens)?;
        list.push(next)?;
    }
    if tokens.sees(Mark::Comma) {
        return Err(tokens.refuse());
    }
    Ok(list)
}

// A comma, and a parameter.
fn other(tokens: &mut Tokens<'_>) -> Result<Param, Fault>
    ensures { Reads tall_param (comma_param tokens.old) result tokens.new }
{
    tokens.mark(Mark::Comma)?;
    param(tokens)
}

#[tactic(auto, unfolding(crate::specs::Means::Reader::param))]
fn param(tokens: &mut Tokens<'_>) -> Result<Param, Fault>
    ensures { Reads tall_param (spec.param tokens.old) result tokens.new }
{
    match tokens.kind() {
        TokenKind::Scalar(scalar) => {
            let place = tokens.place();
            tokens.skip();
            scalar_param(tokens, place, scalar)
        }
        TokenKind::Container(form) => {
            let container = container_type(tokens, form)?;
            type_param(tokens, container)
        }
        TokenKind::Const => const_param(tokens),
        _ => Err(tokens.refuse()),
    }
}

// What stands behind the type of a number: a name, with `&` before it where the parameter is a reference.
#[tactic(auto, unfolding(crate::specs::Means::Reader::scalar_param))]
fn scalar_param(tokens: &mut Tokens<'_>, place: Place, scalar: Scalar) -> Result<Param, Fault>
    ensures { Reads tall_param (spec.scalar_param place scalar tokens.old) result tokens.new }
{
    if tokens.sees(Mark::And) {
        tokens.skip();
        let name = tokens.identifier()?;
        return Ok(Param::Reference {
            place,
            scalar,
            name,
        });
    }
    let name = tokens.identifier()?;
    Ok(Param::Value {
        place,
        scalar,
        name,
    })
}

// What stands behind the type of a container: a container that may be changed, or an iterator.
#[tactic(auto, unfolding(crate::specs::Means::Reader::type_param))]
fn type_param(tokens: &mut Tokens<'_>, container: ContainerType) -> Result<Param, Fault>
    ensures { Reads tall_param (spec.type_param container tokens.old) result tokens.new }
{
    if tokens.sees(Mark::ColonColon) {
        let iterator = iterator_behind(tokens, container)?;
        let name = tokens.identifier()?;
        return Ok(Param::Iterator { iterator, name });
    }
    tokens.mark(Mark::And)?;
    let name = tokens.identifier()?;
    Ok(Param::Container { container, name })
}

// A container that may not be changed.
#[tactic(auto, unfolding(crate::specs::Means::Reader::const_param))]
fn const_param(tokens: &mut Tokens<'_>) -> Result<Param, Fault>
    ensures { Reads tall_param (spec.const_param tokens.old) result tokens.new }
{
    let place = tokens.place();
    tokens.skip();
    let container = container(tokens)?;
    tokens.mark(Mark::And)?;
    let name = tokens.identifier()?;
    Ok(Param::ConstContainer {
        place,
        container,
        name,
    })
}

// The type of a container of any form.
fn container(tokens: &mut Tokens<'_>) -> Result<ContainerType, Fault>
    ensures { Reads (λ x. x) (container_by (kind_at tokens.old) tokens.old) result tokens.new }
{
    match tokens.kind() {
        TokenKind::Container(form) => container_type(tokens, form),
        _ => Err(tokens.refuse()),
    }
}
