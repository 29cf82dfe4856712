//! What is done for its effect, and what is tested.
ghost use Rattle.std.specs.Prelude.{◌≡◌, ◌++◌, map};
ghost use Rattle.std.specs.List.{list_any};
ghost use Rattle.sl_syntax.specs.TreeView.{expr_of, out_of, effect_of, cond_of};
ghost use Rattle.sl_syntax.specs.Tree.{assigns};
ghost use Rattle.sl_typing.specs.declared.rules.TheConstants as rule;
ghost use Rattle.sl_typing.specs.Faults.{broken as fault};
ghost use Rattle.sl_typing.specs.Flow as flow;
ghost use Rattle.sl_typing.specs.Rules as written;
ghost use Rattle.sl_typing.specs.Sites as sites;
ghost use Rattle.sl_typing.specs.StatementFaults as spec;
ghost use Rattle.sl_typing.specs.Typing.{first_of};
ghost use Rattle.sl_typing.specs.WrongType.{wrong_assignment as wrong};
ghost use Rattle.sl_first_fault.specs.Means.Steps.{Answers};

use crate::expression::expression;
use crate::faults::stop_at;
use crate::stop::Stop;
use sl_base::Place;
use sl_contexts::Known;
use sl_expr_sites::pass_assignment;
use sl_rules::{assigns_const, assigns_weaker, wrong_assignment};
use sl_statement_types::{broken, is_assignment_site, read_fault, site_fault, wrong_out};
use sl_syntax::{Assignment, Cond, Effect, Expr, Out, Print};
use sl_typing::{Fault, rules};

// An item of a print.
fn out(known: &mut Known, item: &Out) -> Result<(), Stop>
    ensures { Answers result (spec.out_faults known.old (out_of item.now)) known.new (flow.behind_out known.old (out_of item.now)) }
{
    match item {
        Out::Text { .. } => Ok(()),
        Out::EndLine { .. } => Ok(()),
        Out::Value(e) => expression(known, e),
    }
}

// The items of a print.
fn outs(known: &mut Known, items: &[Out]) -> Result<(), Stop>
    ensures { Answers result
        (spec.outs_faults known.old (map out_of items.now))
        known.new (flow.behind_outs known.old (map out_of items.now)) }
{
    for item in items {
        out(known, item)?;
    }
    Ok(())
}

// Whether something that is printed isn't one.
fn any_wrong_out(known: &Known, items: &[Out]) -> bool
    ensures { result ≡ list_any (λ item. spec.wrong_out known.now (out_of item)) items.now }
{
    items.iter().any(
        |item| -> bool
            ensures { result ≡ spec.wrong_out known.entry.now (out_of item.now) }
        { wrong_out(known, item) },
    )
}

// The same of the items as data.
fn has_wrong_out(known: &Known, items: &[Out]) -> bool
    ensures { result ≡ list_any (spec.wrong_out known.now) (map out_of items.now) }
{
    any_wrong_out(known, items)
}

// A print.
fn print(known: &mut Known, x: &Print) -> Result<(), Stop>
    ensures { Answers result
        (spec.outs_faults known.old (map out_of x.now.items.items)
        ++ fault (list_any (spec.wrong_out known.old) (map out_of x.now.items.items)) x.now.place rule.WRONG_TYPE)
        known.new (flow.behind_outs known.old (map out_of x.now.items.items)) }
{
    let own = broken(has_wrong_out(known, &x.items), x.place, rules::WRONG_TYPE);
    outs(known, &x.items)?;
    stop_at(own)
}

// The first of its own rules that an assignment breaks, where its left side stands before.
#[tactic(auto, using(crate::proofs::StepLaws::first_laws))]
fn assignment_fault(
    known: &Known,
    left: &Expr,
    operator: Assignment,
    place: Place,
    right: &Expr,
) -> Option<Fault>
    ensures { result ≡ first_of
        (fault (wrong known.now.scope (expr_of left.now) operator (expr_of right.now)) place rule.WRONG_TYPE
        ++ fault (written.assigns_const known.now.scope (expr_of left.now)) place rule.WRITE_TO_CONST
        ++ fault (written.assigns_weaker known.now.scope (expr_of left.now) operator) place rule.WEAKER_ITERATOR
        ++ spec.site_faults known.now (sites.is_assignment_site known.now.scope (expr_of left.now) operator) place) }
{
    let scope = known.scope();
    let is_site = is_assignment_site(scope, left, operator);
    broken(
        wrong_assignment(scope, left, operator, right),
        place,
        rules::WRONG_TYPE,
    )
    .or(broken(assigns_const(scope, left), place, rules::WRITE_TO_CONST))
    .or(broken(
        assigns_weaker(scope, left, operator),
        place,
        rules::WEAKER_ITERATOR,
    ))
    .or(site_fault(known, is_site, place))
}

// An assignment.
fn assignment(
    known: &mut Known,
    left: &Expr,
    operator: Assignment,
    place: Place,
    right: &Expr,
) -> Result<(), Stop>
    ensures { Answers result
        (spec.effect_faults known.old (assigns (expr_of left.now) operator place (expr_of right.now)))
        known.new (flow.behind_effect known.old (assigns (expr_of left.now) operator place (expr_of right.now))) }
{
    expression(known, left)?;
    let own = assignment_fault(known, left, operator, place, right);
    pass_assignment(known, left, operator, place)?;
    expression(known, right)?;
    stop_at(own)
}

/// What is done for its effect.
pub fn effect(known: &mut Known, x: &Effect) -> Result<(), Stop>
    ensures { Answers result (spec.effect_faults known.old (effect_of x.now)) known.new (flow.behind_effect known.old (effect_of x.now)) }
{
    match x {
        Effect::Read(read) => stop_at(read_fault(known, read)),
        Effect::Print(items) => print(known, items),
        Effect::Value(e) => expression(known, e),
        Effect::Assign {
            left,
            operator,
            place,
            right,
        } => assignment(known, left, *operator, *place, right),
    }
}

/// A condition.
pub fn condition(known: &mut Known, x: &Cond) -> Result<(), Stop>
    ensures { Answers result (spec.cond_faults known.old (cond_of x.now)) known.new (flow.behind_cond known.old (cond_of x.now)) }
{
    match x {
        Cond::Read(read) => stop_at(read_fault(known, read)),
        Cond::NotRead { read, .. } => stop_at(read_fault(known, read)),
        Cond::Value(e) => expression(known, e),
    }
}
