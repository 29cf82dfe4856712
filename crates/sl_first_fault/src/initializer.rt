//! What containers are made from.
ghost use Rattle.std.specs.Prelude.{◌≡◌, ◌==◌, ◌++◌};
ghost use Rattle.sl_syntax.specs.TreeView.{expr_of, exprs_of, initializer_of};
ghost use Rattle.sl_typing.specs.declared.rules.TheConstants as rule;
ghost use Rattle.sl_typing.specs.Faults.{broken as fault};
ghost use Rattle.sl_typing.specs.Flow as flow;
ghost use Rattle.sl_typing.specs.Looks.{place_of as place_seen};
ghost use Rattle.sl_typing.specs.Sites.{behind, behind_all};
ghost use Rattle.sl_typing.specs.StatementFaults as spec;
ghost use Rattle.sl_typing.specs.Typing.{first_of};
ghost use Rattle.sl_first_fault.specs.Means.Steps.{Answers};

use crate::expression::{arguments, expression};
use crate::faults::stop_at;
use crate::stop::Stop;
use sl_base::limits::LIST_ELEMENTS;
use sl_contexts::Known;
use sl_effect_order::some_clash;
use sl_expr_types::place_of;
use sl_statement_types::{broken, has_no_constructor, name_fault, wrong_initializer};
use sl_syntax::{ContainerType, Expr, Initializer};
use sl_typing::{Fault, rules};

// An element in braces, of which so many stand before.
fn element(known: &mut Known, before: usize, x: &Expr) -> Result<(), Stop>
    ensures { Answers result
        (spec.expr_faults known.old (expr_of x.now) ++ fault (before == LIST_ELEMENTS) (place_seen (expr_of x.now)) rule.TOO_MANY_ELEMENTS)
        known.new (behind known.old (expr_of x.now)) }
{
    expression(known, x)?;
    stop_at(broken(
        before == LIST_ELEMENTS,
        place_of(x),
        rules::TOO_MANY_ELEMENTS,
    ))
}

// The elements in braces.
fn elements(known: &mut Known, xs: &[Expr]) -> Result<(), Stop>
    ensures { Answers result (spec.element_faults known.old 0 (exprs_of xs.now)) known.new (behind_all known.old (exprs_of xs.now)) }
{
    for (before, x) in xs.iter().enumerate() {
        element(known, before, x)?;
    }
    Ok(())
}

/// What a container is made from.
pub fn initializer(known: &mut Known, x: &Initializer) -> Result<(), Stop>
    ensures { Answers result
        (spec.initializer_faults known.old (initializer_of x.now))
        known.new (flow.behind_initializer known.old (initializer_of x.now)) }
{
    match x {
        Initializer::Absent => Ok(()),
        Initializer::Copy(name) => stop_at(name_fault(known, name)),
        Initializer::Braces { elements: xs, .. } => elements(known, xs),
        Initializer::Arguments(xs) => arguments(known, xs),
    }
}

// Whether the order of the arguments could matter.
fn is_disordered(known: &Known, x: &Initializer) -> bool
    ensures { result ≡ spec.is_disordered known.now (initializer_of x.now) }
{
    match x {
        Initializer::Arguments(xs) => some_clash(known.scope(), xs),
        _ => false,
    }
}

/// The first rule of those on what a container is made from that is broken at its declaration.
#[tactic(auto, using(crate::proofs::StepLaws::first_laws))]
pub fn container_fault(known: &Known, container: ContainerType, x: &Initializer) -> Option<Fault>
    ensures { result ≡ first_of
        (fault (spec.has_no_constructor container.form (initializer_of x.now)) container.place rule.NO_SUCH_CALL
        ++ fault (spec.wrong_initializer known.now container.form (initializer_of x.now)) container.place rule.WRONG_TYPE
        ++ fault (spec.is_disordered known.now (initializer_of x.now)) container.place rule.ORDER_OF_EFFECTS) }
{
    let place = container.place;
    broken(
        has_no_constructor(container.form, x),
        place,
        rules::NO_SUCH_CALL,
    )
    .or(broken(
        wrong_initializer(known, container.form, x),
        place,
        rules::WRONG_TYPE,
    ))
    .or(broken(is_disordered(known, x), place, rules::ORDER_OF_EFFECTS))
}
