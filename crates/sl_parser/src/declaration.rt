//! Declarations. The depth that is left is how many nodes may stand on a way below one.
ghost use Rattle.std.specs.Prelude.{◌≡◌, ◌≤◌, ◌+◌};
ghost use Rattle.sl_base.specs.declared.limits.TheConstants.{TREE_DEPTH};
ghost use Rattle.sl_grammar.specs.Means.Steps.{Reads, kind_at};
ghost use Rattle.sl_grammar.specs.Means.Declarations.{behind_equal_by};
ghost use Rattle.sl_parser.specs.Means.DeclarationViews.{tall_value, tall_initializer, tall_declaration};
ghost use Rattle.sl_parser.specs.Means.Reader as spec;

use crate::container::container_type;
use crate::reference::reference_head;
use sl_base::{Form, Mark, Scalar};
use sl_expressions::expression::expr;
use sl_expressions::expression::list::{list, list_before};
use sl_grammar::{Fault, Tokens};
use sl_syntax::{Declaration, Expr, Initializer, TokenKind};
use std::alloc::Global;

/// The declaration of a variable of this type.
#[tactic(auto, unfolding(crate::specs::Means::Reader::scalar_declaration))]
pub fn scalar_declaration(
    alloc: Global,
    tokens: &mut Tokens<'_>,
    depth_left: usize,
    scalar: Scalar,
) -> Result<Declaration, Fault>
    requires small { depth_left ≤ TREE_DEPTH }
    ensures { Reads tall_declaration (spec.scalar_declaration depth_left scalar tokens.old) result tokens.new }
{
    let place = tokens.place();
    tokens.skip();
    let name = tokens.identifier()?;
    let value = optional_value(alloc, tokens, depth_left)?;
    Ok(Declaration::Scalar {
        place,
        scalar,
        name,
        value,
    })
}

/// The declaration of a variable that takes its type from its value.
#[tactic(auto, unfolding(crate::specs::Means::Reader::auto_declaration))]
pub fn auto_declaration(
    alloc: Global,
    tokens: &mut Tokens<'_>,
    depth_left: usize,
) -> Result<Declaration, Fault>
    requires small { depth_left ≤ TREE_DEPTH }
    ensures { Reads tall_declaration (spec.auto_declaration depth_left tokens.old) result tokens.new }
{
    let place = tokens.place();
    tokens.skip();
    let name = tokens.identifier()?;
    tokens.mark(Mark::Equal)?;
    let value = expr(alloc, tokens, depth_left + 1, 1)?;
    Ok(Declaration::Auto { place, name, value })
}

/// The declaration of a reference.
#[tactic(auto, unfolding(crate::specs::Means::Reader::reference_declaration))]
pub fn reference_declaration(
    alloc: Global,
    tokens: &mut Tokens<'_>,
    depth_left: usize,
) -> Result<Declaration, Fault>
    requires small { depth_left ≤ TREE_DEPTH }
    ensures { Reads tall_declaration (spec.reference_declaration depth_left tokens.old) result tokens.new }
{
    let head = reference_head(tokens)?;
    let name = tokens.identifier()?;
    tokens.mark(Mark::Equal)?;
    let value = expr(alloc, tokens, depth_left + 1, 1)?;
    Ok(Declaration::Reference { head, name, value })
}

/// The declaration of a container of this form.
#[tactic(auto, unfolding(crate::specs::Means::Reader::container_declaration))]
pub fn container_declaration(
    alloc: Global,
    tokens: &mut Tokens<'_>,
    depth_left: usize,
    form: Form,
) -> Result<Declaration, Fault>
    requires small { depth_left ≤ TREE_DEPTH }
    ensures { Reads tall_declaration (spec.container_declaration depth_left form tokens.old) result tokens.new }
{
    if depth_left == 0 {
        return Err(tokens.refuse());
    }
    let container = container_type(tokens, form)?;
    let name = tokens.identifier()?;
    let initializer = initializer(alloc, tokens, depth_left)?;
    Ok(Declaration::Container {
        container,
        name,
        initializer,
    })
}

// `=` and a value, which may be left out.
#[tactic(auto, unfolding(crate::specs::Means::Reader::optional_value))]
fn optional_value(
    alloc: Global,
    tokens: &mut Tokens<'_>,
    depth_left: usize,
) -> Result<Option<Expr>, Fault>
    requires small { depth_left ≤ TREE_DEPTH }
    ensures { Reads tall_value (spec.optional_value depth_left tokens.old) result tokens.new }
{
    if !tokens.sees(Mark::Equal) {
        return Ok(None);
    }
    tokens.skip();
    let value = expr(alloc, tokens, depth_left + 1, 1)?;
    Ok(Some(value))
}

// What a container is made from.
#[tactic(auto, unfolding(crate::specs::Means::Reader::initializer))]
fn initializer(
    alloc: Global,
    tokens: &mut Tokens<'_>,
    depth_left: usize,
) -> Result<Initializer, Fault>
    requires small { depth_left ≤ TREE_DEPTH }
    ensures { Reads tall_initializer (spec.initializer depth_left tokens.old) result tokens.new }
{
    match tokens.kind() {
        TokenKind::Mark(Mark::Equal) => {
            tokens.skip();
            behind_equal(alloc, tokens, depth_left)
        }
        TokenKind::Mark(Mark::LeftBrace) => {
            tokens.skip();
            braces(alloc, tokens, depth_left, false)
        }
        TokenKind::Mark(Mark::LeftParenthesis) => constructed(alloc, tokens, depth_left),
        _ => Ok(Initializer::Absent),
    }
}

// Another container, or elements in braces.
fn behind_equal(
    alloc: Global,
    tokens: &mut Tokens<'_>,
    depth_left: usize,
) -> Result<Initializer, Fault>
    requires small { depth_left ≤ TREE_DEPTH }
    ensures { Reads tall_initializer (behind_equal_by depth_left (kind_at tokens.old) tokens.old) result tokens.new }
{
    match tokens.kind() {
        TokenKind::Name => {
            let name = tokens.identifier()?;
            Ok(Initializer::Copy(name))
        }
        TokenKind::Mark(Mark::LeftBrace) => {
            tokens.skip();
            braces(alloc, tokens, depth_left, true)
        }
        _ => Err(tokens.refuse()),
    }
}

// What stands behind the first brace, with the last.
#[tactic(auto, unfolding(crate::specs::Means::Reader::braces))]
fn braces(
    alloc: Global,
    tokens: &mut Tokens<'_>,
    depth_left: usize,
    equal: bool,
) -> Result<Initializer, Fault>
    requires small { depth_left ≤ TREE_DEPTH }
    ensures { Reads tall_initializer (spec.braces depth_left equal tokens.old) result tokens.new }
{
    let elements = list_before(alloc, tokens, depth_left, Mark::RightBrace)?;
    tokens.mark(Mark::RightBrace)?;
    Ok(Initializer::Braces { equal, elements })
}

// Arguments in parentheses.
#[tactic(auto, unfolding(crate::specs::Means::Reader::constructed))]
fn constructed(
    alloc: Global,
    tokens: &mut Tokens<'_>,
    depth_left: usize,
) -> Result<Initializer, Fault>
    requires small { depth_left ≤ TREE_DEPTH }
    ensures { Reads tall_initializer (spec.constructed depth_left tokens.old) result tokens.new }
{
    tokens.skip();
    let arguments = list(alloc, tokens, depth_left)?;
    tokens.mark(Mark::RightParenthesis)?;
    Ok(Initializer::Arguments(arguments))
}
