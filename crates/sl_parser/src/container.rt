//! The type of a container, and that of its iterator.
ghost use Rattle.sl_grammar.specs.Means.Steps.{Reads};
ghost use Rattle.sl_grammar.specs.Means.Declarations.{elements_by};
ghost use Rattle.sl_parser.specs.Means.Reader as spec;

use sl_base::{Form, Mark, Scalar};
use sl_grammar::{Fault, Tokens};
use sl_syntax::{ContainerType, IteratorType, TokenKind};

/// The type of a container of this form, at its first token.
#[tactic(auto, unfolding(crate::specs::Means::Reader::container_type))]
pub fn container_type(tokens: &mut Tokens<'_>, form: Form) -> Result<ContainerType, Fault>
    ensures { Reads (λ x. x) (spec.container_type form tokens.old) result tokens.new }
{
    let place = tokens.place();
    tokens.skip();
    let container = ContainerType { place, form };
    elements(tokens, container.is_map())?;
    Ok(container)
}

/// `::iterator` behind a container's type, with any name.
#[tactic(auto, unfolding(crate::specs::Means::Reader::iterator_behind))]
pub fn iterator_behind(
    tokens: &mut Tokens<'_>,
    container: ContainerType,
) -> Result<IteratorType, Fault>
    ensures { Reads (λ x. x) (spec.iterator_behind container tokens.old) result tokens.new }
{
    tokens.mark(Mark::ColonColon)?;
    let name = tokens.identifier()?;
    Ok(IteratorType { container, name })
}

// `<int>`, or `<int, int>` where there are values.
fn elements(tokens: &mut Tokens<'_>, values: bool) -> Result<(), Fault>
    ensures { Reads (λ x. x) (elements_by values tokens.old) result tokens.new }
{
    tokens.mark(Mark::Less)?;
    int(tokens)?;
    if values {
        tokens.mark(Mark::Comma)?;
        int(tokens)?;
    }
    tokens.mark(Mark::Greater)?;
    Ok(())
}

// `int`
#[tactic(auto, unfolding(crate::specs::Means::Reader::int))]
fn int(tokens: &mut Tokens<'_>) -> Result<(), Fault>
    ensures { Reads (λ x. x) (spec.int tokens.old) result tokens.new }
{
    match tokens.kind() {
        TokenKind::Scalar(Scalar::Int) => {
            tokens.skip();
            Ok(())
        }
        _ => Err(tokens.refuse()),
    }
}
