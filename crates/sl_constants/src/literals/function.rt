//! The literals of programs.
ghost use Rattle.std.specs.Prelude.{◌≡◌, ◌++◌, OnOk};
ghost use Rattle.sl_syntax.specs.TreeView.{program_of};
ghost use Rattle.sl_typing.specs.Literals.{literals_of_program};

use crate::literals::statement::push_items;
use sl_base::Items;
use sl_syntax::Program;
use std::alloc::AllocError;

/// Puts the literals of a program behind the others.
pub fn push_program(out: &mut Items<i64>, p: &Program) -> Result<(), AllocError>
    ensures { OnOk result (out.new ≡ out.old ++ literals_of_program (program_of p.now)) }
{
    for f in &p.functions {
        push_items(out, &f.body.items)?;
    }
    Ok(())
}
