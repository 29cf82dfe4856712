//! The last phase: the typed text of a program.
ghost use Rattle.std.specs.Prelude.{◌≡◌, List, ℕ, Some, IfOk, IfErr};
ghost use Rattle.sl_syntax.specs.TreeView.{program_of};
ghost use Rattle.sl_syntax.specs.TypedView.{typed_of};
ghost use Rattle.sl_typing.specs.declared.fault.Fault.{Fault};
ghost use Rattle.sl_typing.specs.Typing as typing;
ghost use Rattle.sl_model.specs.Reports.Refusals.{typing_words};
ghost use Rattle.sl_model.specs.Reports.Texts.{refusal_line};
ghost use Rattle.sl_tool.specs.Stopping.{line_of};

use crate::phases::stop::Stop;
use sl_syntax::Program;
use sl_syntax::typed::Typed;
use sl_types::{TypeErr, resolve};
use sl_typing::rules;
use std::alloc::Global;

/// The typed text of a program.
pub fn typed_of(alloc: Global, program: &Program) -> Result<Typed, Stop>
    ensures typed { IfOk result (λ typed. typing.Typed (program_of program.now) (typed_of typed)) }
    ensures refused { IfErr result (λ stop. (file line : List ℕ) → line_of file stop ≡ Some line →
        (x : Fault) × typing.FirstBroken (program_of program.now) x ×
        (line ≡ refusal_line file x.place (typing_words x.rule))) }
{
    match resolve(alloc, program) {
        Ok(typed) => Ok(typed),
        Err(TypeErr::Memory) => Err(Stop::Memory),
        Err(TypeErr::At { place, rule }) => Err(Stop::Refused {
            place,
            words: rule_words(rule),
        }),
    }
}

// The words for a rule of typing, none where the number is no rule's.
fn rule_words(rule: u8) -> &'static str
    ensures { result.now ≡ typing_words rule }
{
    match rule {
        rules::UNKNOWN_NAME => "unknown name",
        rules::DECLARED_TWICE => "declared twice",
        rules::NO_SUCH_CALL => "no such call",
        rules::WRONG_TYPE => "wrong type",
        rules::WRITE_TO_CONST => "write to const",
        rules::ALIAS => "alias",
        rules::ORDER_OF_EFFECTS => "order of effects",
        rules::OUTSIDE_A_LOOP => "outside a loop",
        rules::NO_MAIN => "no main",
        rules::LIBRARY_NAME => "library name",
        rules::WRONG_RETURN => "wrong return",
        rules::WEAKER_ITERATOR => "weaker iterator",
        rules::APPENDER => "appender",
        rules::AUTO => "auto",
        rules::TOO_MANY_FUNCTIONS => "too many functions",
        rules::TOO_MANY_VARIABLES => "too many variables",
        rules::TOO_MANY_SITES => "too many sites",
        rules::TOO_MANY_PARAMETERS => "too many parameters",
        rules::TOO_MANY_ELEMENTS => "too many elements",
        rules::TOO_MANY_STATEMENTS => "too many statements",
        _ => "",
    }
}
