//! The second phase: the program that tokens write.
ghost use Rattle.std.specs.Prelude.{◌≡◌, ◌≤◌, List, ℕ, length, Some, IfOk, IfErr};
ghost use Rattle.sl_base.specs.Tokens.{Tokens};
ghost use Rattle.sl_base.specs.declared.limits.TheConstants.{TEXT_BYTES};
ghost use Rattle.sl_syntax.specs.TreeView.{program_of};
ghost use Rattle.sl_model.specs.Reports.Refusals.{IsParsed, IsRefusal, stop_place};
ghost use Rattle.sl_tool.specs.Stopping.{line_of};

use crate::phases::stop::Stop;
use sl_base::{Place, Token, place_of};
use sl_parser::{ParseErr, parse};
use sl_syntax::Program;
use std::alloc::Global;

/// The program that the tokens of a text write.
pub fn program_of(alloc: Global, text: &[u8], tokens: &[Token]) -> Result<Program, Stop>
    requires short { length text.now ≤ TEXT_BYTES }
    requires cut { Tokens text.now tokens.now }
    ensures program { IfOk result (λ program. IsParsed text.now tokens.now (program_of program)) }
    ensures refused { IfErr result (λ stop. (file line : List ℕ) → line_of file stop ≡ Some line → IsRefusal file text.now line) }
{
    match parse(alloc, tokens) {
        Ok(program) => Ok(program),
        Err(ParseErr::Memory) => Err(Stop::Memory),
        Err(ParseErr::Grammar { token }) => Err(Stop::Refused {
            place: stop_place(text, tokens, token as usize),
            words: "grammar",
        }),
    }
}

/// The place of the token k, and where there is none the one behind the last byte.
pub fn stop_place(text: &[u8], tokens: &[Token], k: usize) -> Place
    requires { length text.now ≤ TEXT_BYTES }
    ensures { result ≡ stop_place text.now tokens.now k }
{
    match tokens.get(k) {
        Some(token) => token.place,
        None => place_of(text, text.len()),
    }
}
