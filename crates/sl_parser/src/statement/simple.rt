//! Statements that hold no other.
ghost use Rattle.std.specs.Prelude.{◌≡◌, ◌<◌};
ghost use Rattle.sl_base.specs.declared.limits.TheConstants.{TREE_DEPTH};
ghost use Rattle.sl_grammar.specs.Means.Steps.{Reads};
ghost use Rattle.sl_grammar.specs.Means.Statements as steps;
ghost use Rattle.sl_parser.specs.Means.Reader as spec;
ghost use Rattle.sl_parser.specs.Means.StatementViews.{tall_stmt, within};
ghost use Rattle.sl_syntax.specs.Tree as tree;

use crate::statement::within::Within;
use sl_base::{Mark, Place};
use sl_expressions::effect::effect;
use sl_expressions::expression::expr;
use sl_grammar::{Fault, Tokens};
use sl_syntax::Stmt;
use std::alloc::Global;

impl<F: Fn(Global, &mut Tokens<'_>, usize) -> Result<Stmt, Fault>> Within<F> {
    #[tactic(auto, unfolding(crate::specs::Means::Reader::word_stmt))]
    pub fn break_stmt(&self, tokens: &mut Tokens<'_>) -> Result<Stmt, Fault>
        ensures { Reads tall_stmt (within spec.word_stmt self.now.depth_left tree.break tokens.old) result tokens.new }
    {
        let place = tokens.place();
        tokens.skip();
        tokens.mark(Mark::Semicolon)?;
        Ok(Stmt::Break { place })
    }

    #[tactic(auto, unfolding(crate::specs::Means::Reader::word_stmt))]
    pub fn continue_stmt(&self, tokens: &mut Tokens<'_>) -> Result<Stmt, Fault>
        ensures { Reads tall_stmt (within spec.word_stmt self.now.depth_left tree.continue tokens.old)
            result tokens.new }
    {
        let place = tokens.place();
        tokens.skip();
        tokens.mark(Mark::Semicolon)?;
        Ok(Stmt::Continue { place })
    }

    #[tactic(auto, unfolding(crate::specs::Means::Reader::return_stmt))]
    pub fn return_stmt(&self, tokens: &mut Tokens<'_>) -> Result<Stmt, Fault>
        requires { self.now.depth_left < TREE_DEPTH }
        ensures { Reads tall_stmt (within spec.return_stmt self.now.depth_left tokens.old) result tokens.new }
    {
        let place = tokens.place();
        tokens.skip();
        self.returned(tokens, place)
    }

    // What stands behind `return`.
    fn returned(&self, tokens: &mut Tokens<'_>, place: Place) -> Result<Stmt, Fault>
        requires { self.now.depth_left < TREE_DEPTH }
        ensures { Reads tall_stmt (within steps.returned self.now.depth_left place tokens.old) result tokens.new }
    {
        if tokens.sees(Mark::Semicolon) {
            tokens.skip();
            return Ok(Stmt::Return { place, value: None });
        }
        let value = expr(self.alloc, tokens, self.depth_left + 1, 1)?;
        tokens.mark(Mark::Semicolon)?;
        Ok(Stmt::Return {
            place,
            value: Some(value),
        })
    }

    #[tactic(auto, unfolding(crate::specs::Means::Reader::effect_stmt))]
    pub fn effect_stmt(&self, tokens: &mut Tokens<'_>) -> Result<Stmt, Fault>
        requires { self.now.depth_left < TREE_DEPTH }
        ensures { Reads tall_stmt (within spec.effect_stmt self.now.depth_left tokens.old) result tokens.new }
    {
        let place = tokens.place();
        let effect = effect(self.alloc, tokens, self.depth_left)?;
        tokens.mark(Mark::Semicolon)?;
        Ok(Stmt::Effect { place, effect })
    }
}
