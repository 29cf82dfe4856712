//! Statements and blocks.
ghost use Rattle.std.specs.Prelude.{◌≡◌, ◌≤◌, ◌<◌};
ghost use Rattle.sl_base.specs.declared.limits.TheConstants.{TREE_DEPTH};
ghost use Rattle.sl_grammar.specs.Means.Steps.{Reads};
ghost use Rattle.sl_parser.specs.Means.Reader as spec;
ghost use Rattle.sl_parser.specs.Means.StatementViews.{tall_block, tall_stmt, within};

mod block;
mod branch;
mod for_loop;
mod simple;
mod within;

use crate::statement::within::Within;
use sl_grammar::{Fault, Tokens};
use sl_syntax::{Block, Stmt};
use std::alloc::Global;

/// A statement that is at most so high.
pub fn stmt(alloc: Global, tokens: &mut Tokens<'_>, depth_left: usize) -> Result<Stmt, Fault>
    requires small { depth_left ≤ TREE_DEPTH }
    ensures { Reads tall_stmt (spec.stmt depth_left tokens.old) result tokens.new }
{
    if depth_left == 0 {
        return Err(tokens.refuse());
    }
    Within {
        alloc,
        depth_left: depth_left - 1,
        inner: stmt,
    }
    .stmt(tokens)
}

/// A block whose statements are at most so high.
pub fn braced(alloc: Global, tokens: &mut Tokens<'_>, depth_left: usize) -> Result<Block, Fault>
    requires small { depth_left < TREE_DEPTH }
    ensures { Reads tall_block (within spec.braced depth_left tokens.old) result tokens.new }
{
    Within {
        alloc,
        depth_left,
        inner: stmt,
    }
    .braced(tokens)
}
