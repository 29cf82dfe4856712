//! The words of a program's tree, by the same rules that read it.
ghost use Rattle.std.specs.Prelude.{◌≡◌, IfOk};
ghost use Rattle.sl_syntax.specs.TreeView.{program_of};
ghost use Rattle.sl_syntax.specs.Written.{words};

mod declaration;
mod effect;
mod expr;
mod function;
mod marks;
mod statement;
mod word;

use crate::tree::Program;
use crate::write::function::write_function;
use sl_base::{Items, Word};
use std::alloc::{AllocError, Global};

/// The words of a program.
pub fn write_tokens(alloc: Global, p: &Program) -> Result<Items<Word>, AllocError>
    ensures { IfOk result (λ ws. ws ≡ words (program_of p.now)) }
{
    let mut out = Items::new(alloc);
    for function in &p.functions {
        write_function(alloc, &mut out, function)?;
    }
    Ok(out)
}
