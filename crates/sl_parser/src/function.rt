//! Functions.
ghost use Rattle.std.specs.Prelude.{◌≡◌, length};
ghost use Rattle.sl_grammar.specs.Means.Statements as steps;
ghost use Rattle.sl_grammar.specs.Means.Steps.{Reads};
ghost use Rattle.sl_parser.specs.Means.FunctionViews.{tall_result, tall_function, tall_functions};
ghost use Rattle.sl_parser.specs.Means.Reader as spec;

use crate::container::{container_type, iterator_behind};
use crate::params::params;
use crate::statement::braced;
use sl_base::Mark;
use sl_base::limits::TREE_DEPTH;
use sl_grammar::{Fault, Tokens};
use sl_syntax::{Function, ResultType, TokenKind};
use std::alloc::Global;

/// The functions up to the last token, at least one.
#[tactic(auto, using(sl_expressions::proofs::Heights::one_alone), unfolding(crate::specs::Means::Reader::program))]
pub fn functions(alloc: Global, tokens: &mut Tokens<'_>) -> Result<Vec<Function>, Fault>
    ensures { Reads tall_functions (spec.program tokens.old) result tokens.new }
{
    let first = function(alloc, tokens)?;
    let mut list = Vec::new(alloc);
    list.push(first)?;
    others(alloc, tokens, list)
}

// The functions behind those that are there.
#[tactic(auto, unfolding(crate::specs::Means::Reader::repeat))]
fn others(
    alloc: Global,
    tokens: &mut Tokens<'_>,
    mut list: Vec<Function>,
) -> Result<Vec<Function>, Fault>
    ensures { Reads tall_functions
        (spec.repeat steps.is_more spec.function (length tokens.old) (tall_functions list) tokens.old)
        result tokens.new }
{
    for _turn in 0..tokens.left() {
        if tokens.sees_end() {
            return Ok(list);
        }
        let next = function(alloc, tokens)?;
        list.push(next)?;
    }
    if tokens.sees_end() {
        return Ok(list);
    }
    Err(tokens.refuse())
}

#[tactic(auto, unfolding(crate::specs::Means::Reader::function))]
fn function(alloc: Global, tokens: &mut Tokens<'_>) -> Result<Function, Fault>
    ensures { Reads tall_function (spec.function tokens.old) result tokens.new }
{
    let place = tokens.place();
    let gives = result_type(tokens)?;
    let name = tokens.identifier()?;
    tokens.mark(Mark::LeftParenthesis)?;
    let params = params(alloc, tokens)?;
    tokens.mark(Mark::RightParenthesis)?;
    let body = braced(alloc, tokens, TREE_DEPTH - 2)?;
    Ok(Function {
        place,
        result: gives,
        name,
        params,
        body,
    })
}

// What a function gives back.
#[tactic(auto, unfolding(crate::specs::Means::Reader::result))]
fn result_type(tokens: &mut Tokens<'_>) -> Result<ResultType, Fault>
    ensures { Reads tall_result (spec.result tokens.old) result tokens.new }
{
    match tokens.kind() {
        TokenKind::Void => {
            tokens.skip();
            Ok(ResultType::Void)
        }
        TokenKind::Scalar(scalar) => {
            tokens.skip();
            Ok(ResultType::Scalar(scalar))
        }
        TokenKind::Container(form) => {
            let container = container_type(tokens, form)?;
            let iterator = iterator_behind(tokens, container)?;
            Ok(ResultType::Iterator(iterator))
        }
        _ => Err(tokens.refuse()),
    }
}
