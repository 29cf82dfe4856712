ghost use Rattle.std.specs.Prelude.{◌≡◌, ◌<◌};
ghost use Rattle.sl_base.specs.declared.limits.TheConstants.{TREE_DEPTH};
ghost use Rattle.sl_grammar.specs.Means.Steps.{Reads, kind_at};
ghost use Rattle.sl_grammar.specs.Means.Statements.{stmt_by};
ghost use Rattle.sl_syntax.specs.declared.token_kind.TokenKind.TheVariants as k;
ghost use Rattle.sl_parser.specs.Means.Reader as spec;
ghost use Rattle.sl_parser.specs.Means.StatementViews.{Holds, tall_stmt, within};

use sl_base::Mark;
use sl_grammar::{Fault, Tokens};
use sl_syntax::{Stmt, TokenKind};
use std::alloc::Global;

/// Reads a statement that may hold others. `inner` reads those, so that each rule is proved by itself.
#[derive(Drop)]
pub struct Within<F> {
    pub alloc: Global,
    /// How many nodes may still stand on a way in what is read below the statement.
    pub depth_left: usize,
    pub inner: F,
}

impl<F: Fn(Global, &mut Tokens<'_>, usize) -> Result<Stmt, Fault>> Within<F> {
    /// A statement below.
    pub fn inner(&self, tokens: &mut Tokens<'_>) -> Result<Stmt, Fault>
        requires { Holds self.now.depth_left (F.pre self.now.inner) (F.post self.now.inner) }
        ensures { Reads tall_stmt (spec.stmt self.now.depth_left tokens.old) result tokens.new }
    {
        (self.inner)(self.alloc, tokens, self.depth_left)
    }

    /// A statement, by its first word.
    pub fn stmt(&self, tokens: &mut Tokens<'_>) -> Result<Stmt, Fault>
        requires reader { Holds self.now.depth_left (F.pre self.now.inner) (F.post self.now.inner) }
        requires small { self.now.depth_left < TREE_DEPTH }
        ensures { Reads tall_stmt (within stmt_by self.now.depth_left (kind_at tokens.old) tokens.old)
            result tokens.new }
    {
        match tokens.kind() {
            TokenKind::Mark(mark) => self.marked(tokens, mark),
            TokenKind::If => self.choice(tokens),
            TokenKind::While => self.while_loop(tokens),
            TokenKind::For => self.for_loop(tokens),
            TokenKind::Break => self.break_stmt(tokens),
            TokenKind::Continue => self.continue_stmt(tokens),
            TokenKind::Return => self.return_stmt(tokens),
            _ => self.effect_stmt(tokens),
        }
    }

    // A statement that begins with this mark.
    fn marked(&self, tokens: &mut Tokens<'_>, mark: Mark) -> Result<Stmt, Fault>
        requires reader { Holds self.now.depth_left (F.pre self.now.inner) (F.post self.now.inner) }
        requires small { self.now.depth_left < TREE_DEPTH }
        ensures { Reads tall_stmt (within stmt_by self.now.depth_left (k.Mark mark) tokens.old) result tokens.new }
    {
        match mark {
            Mark::LeftBrace => self.block(tokens),
            _ => self.effect_stmt(tokens),
        }
    }
}
