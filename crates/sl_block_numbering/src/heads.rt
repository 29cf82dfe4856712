//! What stands before the bodies of loops.
ghost use Rattle.std.specs.Prelude.{◌≡◌, [], length, IfOk, OnOk, option_map};
ghost use Rattle.sl_contexts.specs.Scoping.{outside_of};
ghost use Rattle.sl_syntax.specs.Tree as tree;
ghost use Rattle.sl_syntax.specs.TreeView.{cond_of, effect_of, first_of};
ghost use Rattle.sl_syntax.specs.TypedView as view;
ghost use Rattle.sl_typing.specs.Contexts as contexts;
ghost use Rattle.sl_typing.specs.Flow as flow;
ghost use Rattle.sl_typing.specs.Numbering as numbers;
ghost use Rattle.sl_typing.specs.Scopes as scopes;
ghost use Rattle.sl_typing.specs.StatementFaults as faults;
ghost use Rattle.sl_typing.specs.StatementNumbering as spec;
ghost use Rattle.sl_number_limits.specs.Fits.{Fits};

use sl_base::Place;
use sl_contexts::{Known, Outside};
use sl_numbering::{name_number, variable_number};
use sl_scopes::names::type_of_name;
use sl_statement_numbering::{condition, first_part, last_part, test};
use sl_statement_types::element_type;
use sl_syntax::typed::{Cond as TypedCond, Effect as TypedEffect, First as TypedFirst, Taken};
use sl_syntax::{Cond, Effect, Element, First, Identifier};
use std::alloc::{AllocError, Global};

/// The head of a `while`, and whether that stands in another loop.
#[derive(Drop)]
pub struct WhileHead {
    pub number: u16,
    pub cond: TypedCond,
    pub in_loop: bool,
}

/// The head of a `for`, and what stands around it.
#[derive(Drop)]
pub struct ForHead {
    pub number: u16,
    pub first: TypedFirst,
    pub cond: TypedCond,
    pub step: Option<TypedEffect>,
    pub outside: Outside,
}

/// The head of a range-for: its number as a loop, the container's and its name's, and what stands around it.
#[derive(Drop)]
pub struct RangeHead {
    pub number: u16,
    pub container: u8,
    pub name: u16,
    pub outside: Outside,
}

// The number of the loop that begins here. It takes no memory.
fn loop_number(known: &Known) -> u16
    requires { Fits known.now }
    ensures { result ≡ length known.now.loops }
{
    known.loops() as u16
}

/// The head of a `while`; then is known what is known in its body.
pub fn while_head(
    alloc: Global,
    known: &mut Known,
    place: Place,
    cond: &Cond,
) -> Result<WhileHead, AllocError>
    requires fits { Fits known.old }
    requires kept { (a : tree.Stmt) × (faults.stmt_faults known.old (tree.while place (cond_of cond.now) a) ≡ []) }
    ensures number { IfOk result (λ h. h.number ≡ length known.old.loops) }
    ensures cond { IfOk result (λ h. view.cond_of h.cond ≡ spec.typed_cond (contexts.started_loop place known.old) (cond_of cond.now)) }
    ensures in_loop { IfOk result (λ h. h.in_loop ≡ known.old.scope.in_loop) }
    ensures inside { OnOk result (known.new ≡ flow.in_while known.old place (cond_of cond.now)) }
{
    let number = loop_number(known);
    known.started_loop(place)?;
    let cond = condition(alloc, known, cond)?;
    let in_loop = known.looping();
    Ok(WhileHead {
        number,
        cond,
        in_loop,
    })
}

// Begins a loop with a scope of its own.
fn enter_loop(alloc: Global, known: &mut Known, place: Place) -> Result<Outside, AllocError>
    ensures entered { OnOk result (known.new ≡ contexts.enter (contexts.started_loop place known.old)) }
    ensures outside { IfOk result (λ outside. outside ≡ outside_of known.old.scope) }
{
    known.started_loop(place)?;
    let outside = known.enter(alloc)?;
    Ok(outside)
}

/// The head of a `for`; then is known what is known in its body.
pub fn for_head(
    alloc: Global,
    known: &mut Known,
    place: Place,
    first: &Option<First>,
    cond: &Option<Cond>,
    step: &Option<Effect>,
) -> Result<ForHead, AllocError>
    requires fits { Fits known.old }
    requires kept { (a : tree.Stmt) × (faults.stmt_faults known.old
        (tree.for place (option_map first_of first.now) (option_map cond_of cond.now) (option_map effect_of step.now) a) ≡ []) }
    ensures number { IfOk result (λ h. h.number ≡ length known.old.loops) }
    ensures first { IfOk result (λ h. view.first_of h.first
        ≡ spec.typed_first (contexts.enter (contexts.started_loop place known.old)) (option_map first_of first.now)) }
    ensures cond { let x = option_map first_of first.now in
        IfOk result (λ h. view.cond_of h.cond ≡ spec.typed_test (flow.at_test known.old place x) (option_map cond_of cond.now)) }
    ensures step { let x = option_map first_of first.now in let k = option_map cond_of cond.now in
        IfOk result (λ h. option_map view.effect_of h.step
        ≡ option_map (spec.typed_effect (flow.at_last known.old place x k)) (option_map effect_of step.now)) }
    ensures outside { IfOk result (λ h. h.outside ≡ outside_of known.old.scope) }
    ensures inside { OnOk result (known.new
        ≡ flow.in_for known.old place (option_map first_of first.now) (option_map cond_of cond.now) (option_map effect_of step.now)) }
{
    let number = loop_number(known);
    let outside = enter_loop(alloc, known, place)?;
    let first = first_part(alloc, known, first)?;
    let cond = test(alloc, known, cond)?;
    let step = last_part(alloc, known, step)?;
    let _ = known.looping();
    Ok(ForHead {
        number,
        first,
        cond,
        step,
        outside,
    })
}

/// How the variable of a range-for takes an element.
pub fn taken_as(element: Element) -> Taken
    ensures { result ≡ spec.taken_as element }
{
    match element {
        Element::Value(_) => Taken::Value,
        Element::Reference(_) => Taken::Reference,
    }
}

/// The head of a range-for; then is known what is known in its body.
pub fn range_head(
    alloc: Global,
    known: &mut Known,
    place: Place,
    element: Element,
    name: &Identifier,
    over: &Identifier,
) -> Result<RangeHead, AllocError>
    requires fits { Fits known.old }
    ensures number { IfOk result (λ h. h.number ≡ length known.old.loops) }
    ensures container { IfOk result (λ h. h.container ≡ scopes.number_of_name known.old.scope over.now.name) }
    ensures name { IfOk result (λ h. h.name ≡ numbers.label_in (scopes.label_of_name known.old.scope over.now.name)) }
    ensures outside { IfOk result (λ h. h.outside ≡ outside_of known.old.scope) }
    ensures inside { OnOk result (known.new ≡ flow.in_range known.old place element name.now over.now) }
{
    let number = loop_number(known);
    let over_type = type_of_name(known.scope(), over.name.as_slice());
    let container = variable_number(known.scope(), over.name.as_slice());
    let label = name_number(known.scope(), over.name.as_slice()).unwrap_or(0);
    let outside = enter_loop(alloc, known, place)?;
    known.with_hidden(over_type)?;
    known.declare(name, element_type(element, over_type))?;
    let _ = known.looping();
    Ok(RangeHead {
        number,
        container,
        name: label,
        outside,
    })
}
