ghost use Rattle.std.specs.Prelude.{◌≡◌, ◌≤◌, ◌<◌, ◌+◌, ◌-◌, [], ◌∷◌, map, length, IfOk};
ghost use Rattle.sl_base.specs.declared.limits.TheConstants.{TREE_DEPTH};
ghost use Rattle.sl_base.specs.declared.mark.Mark.TheVariants as m;
ghost use Rattle.sl_syntax.specs.TreeView.{expr_of};
ghost use Rattle.sl_grammar.specs.Means.Steps.{Reads, is_mark};
ghost use Rattle.sl_grammar.specs.Means.Expressions.{comma_expr};
ghost use Rattle.sl_expressions.specs.Means.Nests.{Nests, listed, tall_expr, tall_exprs, tall_list, whole_exprs};
ghost use Rattle.sl_expressions.specs.Means.Reader as spec;

use crate::expression::nested::Nested;
use crate::expression::nested_expr;
use sl_base::Mark;
use sl_grammar::{Fault, Tokens};
use sl_syntax::Expr;
use std::alloc::Global;

impl<F: Fn(Global, &mut Tokens<'_>, usize, u8) -> Result<(Expr, usize), Fault>> Nested<F> {
    /// A list that may be empty, before this mark.
    #[tactic(auto, unfolding(crate::specs::Means::Reader::list_before))]
    pub fn list_before(
        &self,
        tokens: &mut Tokens<'_>,
        close: Mark,
    ) -> Result<(Vec<Expr>, usize), Fault>
        requires reader { Nests self.now.depth_left (F.pre self.now.inner) (F.post self.now.inner) }
        requires some { 0 < self.now.depth_left }
        ensures reads { Reads tall_exprs (listed spec.list_before self.now.depth_left close tokens.old)
            result tokens.new }
        ensures low { IfOk result (λ x. x.1 < self.now.depth_left) }
    {
        if tokens.sees(close) {
            return Ok((Vec::new(self.alloc), 0));
        }
        self.list(tokens)
    }

    /// A list of at least one.
    #[tactic(auto, unfolding(crate::specs::Means::Reader::list))]
    pub fn list(&self, tokens: &mut Tokens<'_>) -> Result<(Vec<Expr>, usize), Fault>
        requires reader { Nests self.now.depth_left (F.pre self.now.inner) (F.post self.now.inner) }
        requires some { 0 < self.now.depth_left }
        ensures reads { Reads tall_exprs (listed spec.list self.now.depth_left tokens.old) result tokens.new }
        ensures low { IfOk result (λ x. x.1 < self.now.depth_left) }
    {
        let first = self.inner(tokens, self.depth_left, 1)?;
        self.list_behind(tokens, first)
    }

    // A list behind its first. With others it is a node.
    #[tactic(auto, unfolding(crate::specs::Means::Reader::list_behind))]
    fn list_behind(
        &self,
        tokens: &mut Tokens<'_>,
        first: (Expr, usize),
    ) -> Result<(Vec<Expr>, usize), Fault>
        requires reader { Nests self.now.depth_left (F.pre self.now.inner) (F.post self.now.inner) }
        requires low { first.1 < self.now.depth_left }
        ensures reads { Reads tall_exprs (listed spec.list_behind self.now.depth_left (tall_expr first) tokens.old)
            result tokens.new }
        ensures low { IfOk result (λ x. x.1 < self.now.depth_left) }
    {
        let (tree, height) = first;
        let mut list = Vec::new(self.alloc);
        list.push(tree)?;
        if !tokens.sees(Mark::Comma) {
            return Ok((list, height));
        }
        if height >= self.depth_left - 1 {
            return Err(tokens.refuse());
        }
        let (list, other) = self.others(tokens, list)?;
        Ok((list, height.max(other) + 1))
    }

    // The others of a list, behind those that are there, and their greatest height.
    #[tactic(auto, unfolding(crate::specs::Means::Reader::repeat))]
    fn others(
        &self,
        tokens: &mut Tokens<'_>,
        mut list: Vec<Expr>,
    ) -> Result<(Vec<Expr>, usize), Fault>
        requires reader { Nests self.now.depth_left (F.pre self.now.inner) (F.post self.now.inner) }
        requires some { 1 < self.now.depth_left }
        ensures reads { Reads tall_list
            (spec.repeat (is_mark m.Comma) (listed comma_expr self.now.depth_left) (length tokens.old)
            (map expr_of list.items, 0) tokens.old)
            result tokens.new }
        ensures low { IfOk result (λ x. x.1 < self.now.depth_left - 1) }
    {
        let mut height = 0;
        for _turn in 0..tokens.left() {
            if !tokens.sees(Mark::Comma) {
                return Ok((list, height));
            }
            let (tree, other) = self.other(tokens)?;
            list.push(tree)?;
            height = height.max(other);
        }
        if tokens.sees(Mark::Comma) {
            return Err(tokens.refuse());
        }
        Ok((list, height))
    }

    // A comma, and an expression.
    fn other(&self, tokens: &mut Tokens<'_>) -> Result<(Expr, usize), Fault>
        requires reader { Nests self.now.depth_left (F.pre self.now.inner) (F.post self.now.inner) }
        requires some { 1 < self.now.depth_left }
        ensures reads { Reads tall_expr (listed comma_expr self.now.depth_left tokens.old) result tokens.new }
        ensures low { IfOk result (λ x. x.1 < self.now.depth_left - 1) }
    {
        tokens.mark(Mark::Comma)?;
        self.inner(tokens, self.depth_left - 1, 1)
    }
}

/// A list that may be empty, before this mark, and that is at most so high.
pub fn list_before(
    alloc: Global,
    tokens: &mut Tokens<'_>,
    depth_left: usize,
    close: Mark,
) -> Result<Vec<Expr>, Fault>
    requires small { depth_left ≤ TREE_DEPTH }
    ensures { Reads whole_exprs
        (spec.list_before (spec.expr (depth_left + 1) 1) (spec.expr depth_left 1) depth_left close tokens.old)
        result tokens.new }
{
    let nested = Nested {
        alloc,
        depth_left: depth_left + 1,
        inner: nested_expr,
    };
    let (list, _) = nested.list_before(tokens, close)?;
    Ok(list)
}

/// A list of at least one that is at most so high.
pub fn list(alloc: Global, tokens: &mut Tokens<'_>, depth_left: usize) -> Result<Vec<Expr>, Fault>
    requires small { depth_left ≤ TREE_DEPTH }
    ensures { Reads whole_exprs
        (spec.list (spec.expr (depth_left + 1) 1) (spec.expr depth_left 1) depth_left tokens.old)
        result tokens.new }
{
    let nested = Nested {
        alloc,
        depth_left: depth_left + 1,
        inner: nested_expr,
    };
    let (list, _) = nested.list(tokens)?;
    Ok(list)
}
