//! `if` and `while`.
ghost use Rattle.std.specs.Prelude.{◌≡◌, ◌<◌};
ghost use Rattle.sl_base.specs.declared.limits.TheConstants.{TREE_DEPTH};
ghost use Rattle.sl_grammar.specs.Means.Steps.{Reads};
ghost use Rattle.sl_expressions.specs.Means.EffectViews.{tall_cond};
ghost use Rattle.sl_parser.specs.Means.Reader as spec;
ghost use Rattle.sl_parser.specs.Means.StatementViews.{Holds, tall_stmt, within};

use crate::statement::within::Within;
use sl_base::{Mark, Place};
use sl_expressions::effect::cond;
use sl_grammar::{Fault, Tokens};
use sl_syntax::{Cond, Stmt};
use std::alloc::Global;

impl<F: Fn(Global, &mut Tokens<'_>, usize) -> Result<Stmt, Fault>> Within<F> {
    /// An `if`, with its `else` where one follows.
    #[tactic(auto, unfolding(crate::specs::Means::Reader::choice))]
    pub fn choice(&self, tokens: &mut Tokens<'_>) -> Result<Stmt, Fault>
        requires reader { Holds self.now.depth_left (F.pre self.now.inner) (F.post self.now.inner) }
        requires small { self.now.depth_left < TREE_DEPTH }
        ensures { Reads tall_stmt (within spec.choice self.now.depth_left tokens.old) result tokens.new }
    {
        if self.depth_left == 0 {
            return Err(tokens.refuse());
        }
        let place = tokens.place();
        tokens.skip();
        let cond = self.condition(tokens)?;
        let then = self.inner(tokens)?;
        self.otherwise(tokens, place, cond, then)
    }

    // What stands behind the statement of an `if`.
    #[tactic(auto, using(crate::proofs::Views::stmt_views), unfolding(crate::specs::Means::Reader::otherwise))]
    fn otherwise(
        &self,
        tokens: &mut Tokens<'_>,
        place: Place,
        cond: Cond,
        then: Stmt,
    ) -> Result<Stmt, Fault>
        requires { Holds self.now.depth_left (F.pre self.now.inner) (F.post self.now.inner) }
        ensures { Reads tall_stmt
            (within spec.otherwise self.now.depth_left place (tall_cond cond) (tall_stmt then) tokens.old)
            result tokens.new }
    {
        let then = Box::new(self.alloc, then)?;
        if !tokens.sees_else() {
            return Ok(Stmt::If {
                place,
                cond,
                then,
                otherwise: None,
            });
        }
        tokens.skip();
        let tree = self.inner(tokens)?;
        let otherwise = Box::new(self.alloc, tree)?;
        Ok(Stmt::If {
            place,
            cond,
            then,
            otherwise: Some(otherwise),
        })
    }

    #[tactic(auto, using(crate::proofs::Views::stmt_views), unfolding(crate::specs::Means::StatementViews::while_loop))]
    pub fn while_loop(&self, tokens: &mut Tokens<'_>) -> Result<Stmt, Fault>
        requires reader { Holds self.now.depth_left (F.pre self.now.inner) (F.post self.now.inner) }
        requires small { self.now.depth_left < TREE_DEPTH }
        ensures { Reads tall_stmt (within spec.loop self.now.depth_left tokens.old) result tokens.new }
    {
        if self.depth_left == 0 {
            return Err(tokens.refuse());
        }
        let place = tokens.place();
        tokens.skip();
        let cond = self.condition(tokens)?;
        let tree = self.inner(tokens)?;
        let body = Box::new(self.alloc, tree)?;
        Ok(Stmt::While { place, cond, body })
    }

    // `(..)`
    #[tactic(auto, unfolding(crate::specs::Means::Reader::condition))]
    fn condition(&self, tokens: &mut Tokens<'_>) -> Result<Cond, Fault>
        requires { self.now.depth_left < TREE_DEPTH }
        ensures { Reads tall_cond (within spec.condition self.now.depth_left tokens.old) result tokens.new }
    {
        tokens.mark(Mark::LeftParenthesis)?;
        let tested = cond(self.alloc, tokens, self.depth_left)?;
        tokens.mark(Mark::RightParenthesis)?;
        Ok(tested)
    }
}
