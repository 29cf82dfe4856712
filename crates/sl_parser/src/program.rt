ghost use Rattle.std.specs.Prelude.{◌≡◌, ◌≤◌, ℕ, length, MatchResult, IfOk, IfErr, IsErrAnd, ◌⊎◌};
ghost use Rattle.sl_base.specs.declared.limits.TheConstants.{TEXT_BYTES};
ghost use Rattle.sl_syntax.specs.Begins.{IsProgram, Stops, words_in};
ghost use Rattle.sl_syntax.specs.Placed.{Placed};
ghost use Rattle.sl_syntax.specs.Shaped.{Shaped};
ghost use Rattle.sl_syntax.specs.Tree.{Program as ProgramValue};
ghost use Rattle.sl_syntax.specs.TreeView.{program_of};

use crate::error::ParseErr;
use crate::function::functions;
use sl_base::Token;
use sl_grammar::{Fault, Tokens};
use sl_syntax::Program;
use std::alloc::Global;

/// The program whose words these tokens are, of at most 1,048,576 tokens: the one that follows the grammar, with its
/// depth of at most 64, placed by the tokens.
///
/// `ParseErr::Memory` comes where memory runs out; `ParseErr::Grammar` exactly where the words are those of no such
/// program, at the first with which they begin none.
pub fn parse(alloc: Global, tokens: &[Token]) -> Result<Program, ParseErr>
    requires { length tokens.now ≤ TEXT_BYTES }
    // What is answered is so.
    ensures shaped { IfOk result (λ p. Shaped (program_of p)) }
    ensures placed { IfOk result (λ p. Placed (program_of p) tokens.now) }
    ensures stops { (k : ℕ) → result ≡ Err (ParseErr.Grammar k) → Stops IsProgram (words_in tokens.now) k }
    // What is so is answered, unless memory runs out.
    ensures only_program { (p : ProgramValue) → Shaped p → Placed p tokens.now
        → MatchResult result (λ q. program_of q ≡ p) (λ e. e ≡ ParseErr.Memory) }
    ensures only_stop { (k : ℕ) → Stops IsProgram (words_in tokens.now) k
        → IsErrAnd result (λ e. (e ≡ ParseErr.Memory) ⊎ (e ≡ ParseErr.Grammar k)) }
{
    let mut cursor = Tokens::new(tokens);
    match functions(alloc, &mut cursor) {
        Ok(functions) => Ok(Program { functions }),
        Err(Fault::Memory) => Err(ParseErr::Memory),
        Err(Fault::Grammar(left)) => Err(ParseErr::Grammar {
            token: (tokens.len() - left) as u32,
        }),
    }
}
