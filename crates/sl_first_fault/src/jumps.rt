//! Statements that hold no others.
ghost use Rattle.std.specs.Prelude.{◌≡◌, ◌++◌, not, option_map};
ghost use Rattle.sl_syntax.specs.Tree as tree;
ghost use Rattle.sl_syntax.specs.TreeView.{expr_of, effect_of, declaration_of};
ghost use Rattle.sl_typing.specs.declared.rules.TheConstants as rule;
ghost use Rattle.sl_typing.specs.Contexts.{started};
ghost use Rattle.sl_typing.specs.Faults.{broken as fault};
ghost use Rattle.sl_typing.specs.Flow as flow;
ghost use Rattle.sl_typing.specs.StatementFaults as spec;
ghost use Rattle.sl_typing.specs.Typing.{first_of};
ghost use Rattle.sl_first_fault.specs.Means.Steps.{Answers};

use crate::declaration::{declaration, declaration_place};
use crate::effect::effect;
use crate::expression::value;
use crate::faults::stop_at;
use crate::stop::Stop;
use sl_base::Place;
use sl_contexts::Known;
use sl_statement_types::{broken, statement_fault, wrong_result, wrong_return};
use sl_syntax::{Declaration, Effect, Expr};
use sl_typing::{Fault, rules};

// The first rule that a `break` or a `continue` breaks.
#[tactic(auto, using(crate::proofs::StepLaws::first_laws))]
fn jump_fault(known: &Known, place: Place) -> Option<Fault>
    ensures { result ≡ first_of
        (fault (not known.now.scope.in_loop) place rule.OUTSIDE_A_LOOP ++ spec.statement_faults known.now place) }
{
    broken(!known.scope().in_loop, place, rules::OUTSIDE_A_LOOP).or(statement_fault(known, place))
}

/// A `break` or a `continue`.
pub fn jump(known: &mut Known, place: Place) -> Result<(), Stop>
    ensures { Answers result
        (fault (not known.old.scope.in_loop) place rule.OUTSIDE_A_LOOP ++ spec.statement_faults known.old place)
        known.new (started known.old) }
{
    let own = jump_fault(known, place);
    known.started()?;
    stop_at(own)
}

// The first of its own rules that a `return` breaks.
#[tactic(auto, using(crate::proofs::StepLaws::first_laws))]
fn return_fault(known: &Known, place: Place, value: &Option<Expr>) -> Option<Fault>
    ensures { result ≡ first_of
        (fault (spec.wrong_result known.now (option_map expr_of value.now)) place rule.WRONG_TYPE
        ++ fault (spec.wrong_return known.now.scope.result (option_map expr_of value.now)) place rule.WRONG_RETURN
        ++ spec.statement_faults known.now place) }
{
    broken(wrong_result(known, value), place, rules::WRONG_TYPE)
        .or(broken(
            wrong_return(known.scope().result, value),
            place,
            rules::WRONG_RETURN,
        ))
        .or(statement_fault(known, place))
}

/// A `return`.
pub fn give_back(known: &mut Known, place: Place, given: &Option<Expr>) -> Result<(), Stop>
    ensures { Answers result
        (spec.value_faults (started known.old) (option_map expr_of given.now)
        ++ fault (spec.wrong_result known.old (option_map expr_of given.now)) place rule.WRONG_TYPE
        ++ fault (spec.wrong_return known.old.scope.result (option_map expr_of given.now)) place rule.WRONG_RETURN
        ++ spec.statement_faults known.old place)
        known.new (flow.behind_value (started known.old) (option_map expr_of given.now)) }
{
    let own = return_fault(known, place, given);
    known.started()?;
    value(known, given.as_ref())?;
    stop_at(own)
}

/// What is done for its effect, as a statement.
pub fn effect_statement(known: &mut Known, place: Place, x: &Effect) -> Result<(), Stop>
    ensures { Answers result
        (spec.effect_faults (started known.old) (effect_of x.now) ++ spec.statement_faults known.old place)
        known.new (flow.behind_effect (started known.old) (effect_of x.now)) }
{
    let own = statement_fault(known, place);
    known.started()?;
    effect(known, x)?;
    stop_at(own)
}

/// A declaration, as an item of a block.
pub fn declared_item(known: &mut Known, x: &Declaration) -> Result<(), Stop>
    ensures { Answers result
        (spec.declaration_faults (started known.old) (declaration_of x.now)
        ++ spec.statement_faults known.old (spec.declaration_place (declaration_of x.now)))
        known.new (flow.behind_declaration (started known.old) (declaration_of x.now)) }
{
    let own = statement_fault(known, declaration_place(x));
    known.started()?;
    declaration(known, x)?;
    stop_at(own)
}
