//! What stands before the bodies of statements.
ghost use Rattle.std.specs.Prelude.{◌≡◌, ◌++◌, not, option_map, OnOk, IfOk};
ghost use Rattle.sl_contexts.specs.Scoping.{outside_of};
ghost use Rattle.sl_syntax.specs.Tree as tree;
ghost use Rattle.sl_syntax.specs.TreeView.{cond_of, effect_of, first_of as first_seen};
ghost use Rattle.sl_typing.specs.declared.rules.TheConstants as rule;
ghost use Rattle.sl_typing.specs.Contexts as contexts;
ghost use Rattle.sl_typing.specs.Faults.{broken as fault};
ghost use Rattle.sl_typing.specs.Flow as flow;
ghost use Rattle.sl_typing.specs.Ranges as ranges;
ghost use Rattle.sl_typing.specs.Scopes.{type_of_name as type_named};
ghost use Rattle.sl_typing.specs.StatementFaults as spec;
ghost use Rattle.sl_typing.specs.Typing.{first_of};
ghost use Rattle.sl_first_fault.specs.Means.Steps.{Answers};

use crate::declaration::first as first_part;
use crate::effect::{condition, effect};
use crate::faults::stop_at;
use crate::stop::Stop;
use crate::variables::past_limit;
use sl_base::Place;
use sl_contexts::{Known, Outside};
use sl_scopes::names::type_of_name;
use sl_statement_types::{
    broken, element_type, frees_const, hidden_limit_fault, may_go_over, name_fault,
    statement_fault, wrong_cond,
};
use sl_syntax::{Cond, Effect, Element, First, Identifier};
use sl_typing::{ExprType, Fault, rules};
use std::alloc::{AllocError, Global};

/// What stands around a loop's head, and the first of the loop's own rules that is broken.
#[derive(Drop)]
pub struct Head {
    pub outside: Outside,
    pub own: Option<Fault>,
}

// What is tested isn't a number, where it stands here.
fn tested_fault(known: &Known, place: Place, cond: &Cond) -> Option<Fault>
    ensures { result ≡ first_of (fault (spec.wrong_cond known.now (cond_of cond.now)) place rule.WRONG_TYPE) }
{
    broken(wrong_cond(known, cond), place, rules::WRONG_TYPE)
}

/// The first of its own rules that an `if` breaks.
#[tactic(auto, using(crate::proofs::StepLaws::first_laws, crate::proofs::CondLaws::cond_laws))]
pub fn choice_fault(known: &Known, place: Place, cond: &Cond) -> Option<Fault>
    ensures { result ≡ first_of
        (fault (spec.wrong_cond (contexts.started known.now) (cond_of cond.now)) place rule.WRONG_TYPE
        ++ spec.statement_faults known.now place) }
{
    tested_fault(known, place, cond).or(statement_fault(known, place))
}

/// The first of its own rules that a `while` breaks.
#[tactic(auto, using(crate::proofs::StepLaws::first_laws, crate::proofs::CondLaws::cond_laws))]
pub fn while_fault(known: &Known, place: Place, cond: &Cond) -> Option<Fault>
    ensures { result ≡ first_of
        (fault (spec.wrong_cond (contexts.started_loop place known.now) (cond_of cond.now)) place rule.WRONG_TYPE
        ++ spec.statement_faults known.now place) }
{
    tested_fault(known, place, cond).or(statement_fault(known, place))
}

/// The condition of an `if`.
pub fn choice_condition(known: &mut Known, cond: &Cond) -> Result<(), Stop>
    ensures { Answers result
        (spec.cond_faults (contexts.started known.old) (cond_of cond.now))
        known.new (flow.behind_cond (contexts.started known.old) (cond_of cond.now)) }
{
    known.started()?;
    condition(known, cond)
}

/// The condition of a `while`.
pub fn while_condition(known: &mut Known, place: Place, cond: &Cond) -> Result<(), Stop>
    ensures { Answers result
        (spec.cond_faults (contexts.started_loop place known.old) (cond_of cond.now))
        known.new (flow.behind_cond (contexts.started_loop place known.old) (cond_of cond.now)) }
{
    known.started_loop(place)?;
    condition(known, cond)
}

// Begins a loop with a scope of its own.
fn enter_loop(alloc: Global, known: &mut Known, place: Place) -> Result<Outside, AllocError>
    ensures entered { OnOk result (known.new ≡ contexts.enter (contexts.started_loop place known.old)) }
    ensures outside { IfOk result (λ outside. outside ≡ outside_of known.old.scope) }
{
    known.started_loop(place)?;
    let outside = known.enter(alloc)?;
    Ok(outside)
}

// The condition of a `for`, which may be missing.
fn test(known: &mut Known, cond: &Option<Cond>) -> Result<(), Stop>
    ensures { Answers result
        (spec.test_faults known.old (option_map cond_of cond.now))
        known.new (flow.behind_test known.old (option_map cond_of cond.now)) }
{
    match cond {
        None => Ok(()),
        Some(x) => condition(known, x),
    }
}

// Its last part, which may be missing.
fn last(known: &mut Known, step: &Option<Effect>) -> Result<(), Stop>
    ensures { Answers result
        (spec.last_faults known.old (option_map effect_of step.now))
        known.new (flow.behind_last known.old (option_map effect_of step.now)) }
{
    match step {
        None => Ok(()),
        Some(x) => effect(known, x),
    }
}

// What a `for` tests, where it tests something, isn't a number.
fn test_fault(known: &Known, place: Place, cond: &Option<Cond>) -> Option<Fault>
    ensures { result ≡ first_of (fault (spec.wrong_test known.now (option_map cond_of cond.now)) place rule.WRONG_TYPE) }
{
    match cond {
        None => None,
        Some(x) => tested_fault(known, place, x),
    }
}

// The condition and the last part of a `for`, before its body.
fn test_and_last(known: &mut Known, cond: &Option<Cond>, step: &Option<Effect>) -> Result<(), Stop>
    ensures { Answers result
        (spec.test_faults known.old (option_map cond_of cond.now)
        ++ spec.last_faults (flow.behind_test known.old (option_map cond_of cond.now)) (option_map effect_of step.now))
        known.new (contexts.looping (flow.behind_last (flow.behind_test known.old (option_map cond_of cond.now)) (option_map effect_of step.now))) }
{
    test(known, cond)?;
    last(known, step)?;
    let _ = known.looping();
    Ok(())
}

/// The head of a `for`.
pub fn for_head(
    alloc: Global,
    known: &mut Known,
    place: Place,
    first: &Option<First>,
    cond: &Option<Cond>,
    step: &Option<Effect>,
) -> Result<Head, Stop>
    ensures walk { let x = option_map first_seen first.now in let k = option_map cond_of cond.now in let w = option_map effect_of step.now in
        Answers result
        (spec.first_faults (contexts.enter (contexts.started_loop place known.old)) x
        ++ spec.test_faults (flow.at_test known.old place x) k
        ++ spec.last_faults (flow.at_last known.old place x k) w)
        known.new (flow.in_for known.old place x k w) }
    ensures outside { IfOk result (λ head. head.outside ≡ outside_of known.old.scope) }
    ensures own { let x = option_map first_seen first.now in let k = option_map cond_of cond.now in
        IfOk result (λ head. head.own ≡ first_of
        (fault (spec.wrong_test (flow.at_test known.old place x) k) place rule.WRONG_TYPE ++ spec.statement_faults known.old place)) }
{
    let late = statement_fault(known, place);
    let outside = enter_loop(alloc, known, place)?;
    first_part(known, first)?;
    let own = test_fault(known, place, cond).or(late);
    test_and_last(known, cond, step)?;
    Ok(Head { outside, own })
}

// The rules of a range-for over what is of this type.
#[tactic(auto, using(crate::proofs::StepLaws::first_laws))]
fn over_fault(place: Place, element: Element, over: ExprType) -> Option<Fault>
    ensures { result ≡ first_of
        (fault (not (ranges.may_go_over element over)) place rule.WRONG_TYPE ++ fault (ranges.frees_const element over) place rule.WRITE_TO_CONST) }
{
    broken(!may_go_over(element, over), place, rules::WRONG_TYPE).or(broken(
        frees_const(element, over),
        place,
        rules::WRITE_TO_CONST,
    ))
}

// The variable of a range-for that passes the limit.
fn variable_past_limit(
    known: &Known,
    element: Element,
    name: &Identifier,
    over: ExprType,
) -> Option<Fault>
    ensures { result ≡ first_of (spec.limit_faults known.now (contexts.declare name.now (ranges.element_type element over) known.now) name.now.place) }
{
    past_limit(known, name, element_type(element, over))
}

// Declares the variable of a range-for, before its body.
fn loop_variable(
    known: &mut Known,
    name: &Identifier,
    variable_type: ExprType,
) -> Result<(), AllocError>
    ensures { OnOk result (known.new ≡ contexts.looping (contexts.declare name.now variable_type known.old)) }
{
    known.declare(name, variable_type)?;
    let _ = known.looping();
    Ok(())
}

// The head of a range-for over a name that means what is of this type.
fn head_over(
    alloc: Global,
    known: &mut Known,
    place: Place,
    element: Element,
    name: &Identifier,
    over: ExprType,
) -> Result<Head, AllocError>
    ensures walk { OnOk result (known.new ≡ contexts.looping (contexts.declare name.now (ranges.element_type element over)
        (contexts.with_hidden over (contexts.enter (contexts.started_loop place known.old))))) }
    ensures outside { IfOk result (λ head. head.outside ≡ outside_of known.old.scope) }
    ensures own { let h = contexts.enter (contexts.started_loop place known.old) in let k = contexts.with_hidden over h in
        IfOk result (λ head. head.own ≡ first_of
        (fault (not (ranges.may_go_over element over)) place rule.WRONG_TYPE
        ++ fault (ranges.frees_const element over) place rule.WRITE_TO_CONST
        ++ spec.limit_faults h k place
        ++ spec.limit_faults k (contexts.declare name.now (ranges.element_type element over) k) name.now.place
        ++ spec.statement_faults known.old place)) }
{
    let late = statement_fault(known, place);
    let outside = enter_loop(alloc, known, place)?;
    let hidden = hidden_limit_fault(known, over, place);
    known.with_hidden(over)?;
    let past = variable_past_limit(known, element, name, over);
    loop_variable(known, name, element_type(element, over))?;
    let own = over_fault(place, element, over)
        .or(hidden)
        .or(past)
        .or(late);
    Ok(Head { outside, own })
}

/// The head of a range-for.
pub fn range_head(
    alloc: Global,
    known: &mut Known,
    place: Place,
    element: Element,
    name: &Identifier,
    over: &Identifier,
) -> Result<Head, Stop>
    ensures walk { Answers result (spec.name_faults known.old over.now) known.new (flow.in_range known.old place element name.now over.now) }
    ensures outside { IfOk result (λ head. head.outside ≡ outside_of known.old.scope) }
    ensures own { let u = type_named known.old.scope over.now.name in
        IfOk result (λ head. head.own ≡ first_of
        (fault (not (ranges.may_go_over element u)) place rule.WRONG_TYPE
        ++ fault (ranges.frees_const element u) place rule.WRITE_TO_CONST
        ++ spec.limit_faults (contexts.enter (contexts.started_loop place known.old)) (flow.behind_hidden known.old place over.now) place
        ++ spec.limit_faults (flow.behind_hidden known.old place over.now) (flow.in_range known.old place element name.now over.now) name.now.place
        ++ spec.statement_faults known.old place)) }
{
    let over_type = type_of_name(known.scope(), over.name.as_slice());
    stop_at(name_fault(known, over))?;
    let head = head_over(alloc, known, place, element, name, over_type)?;
    Ok(head)
}
