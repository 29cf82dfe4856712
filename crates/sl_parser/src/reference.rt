//! The type of a reference.
ghost use Rattle.sl_grammar.specs.Means.Steps.{Reads, kind_at};
ghost use Rattle.sl_grammar.specs.Means.Declarations.{element_by, open_head};
ghost use Rattle.sl_parser.specs.Means.Reader as spec;

use sl_base::{Mark, Place, Scalar};
use sl_grammar::{Fault, Tokens};
use sl_syntax::{ElementType, ReferenceHead, TokenKind};

/// `int&` or `auto&`, at its first token, which may be `const`.
#[tactic(auto, unfolding(crate::specs::Means::Reader::reference_head))]
pub fn reference_head(tokens: &mut Tokens<'_>) -> Result<ReferenceHead, Fault>
    ensures { Reads (λ x. x) (spec.reference_head tokens.old) result tokens.new }
{
    let place = tokens.place();
    match tokens.kind() {
        TokenKind::Const => {
            tokens.skip();
            open_head(tokens, true, place)
        }
        _ => open_head(tokens, false, place),
    }
}

// From the type of the element on.
fn open_head(tokens: &mut Tokens<'_>, is_const: bool, place: Place) -> Result<ReferenceHead, Fault>
    ensures { Reads (λ x. x) (open_head is_const place tokens.old) result tokens.new }
{
    let element = element(tokens)?;
    tokens.mark(Mark::And)?;
    Ok(ReferenceHead {
        place,
        is_const,
        element,
    })
}

// `int` or `auto`
fn element(tokens: &mut Tokens<'_>) -> Result<ElementType, Fault>
    ensures { Reads (λ x. x) (element_by (kind_at tokens.old) tokens.old) result tokens.new }
{
    match tokens.kind() {
        TokenKind::Scalar(Scalar::Int) => {
            tokens.skip();
            Ok(ElementType::Int)
        }
        TokenKind::Auto => {
            tokens.skip();
            Ok(ElementType::Auto)
        }
        _ => Err(tokens.refuse()),
    }
}
