ghost use Rattle.std.specs.Prelude.{◌≡◌, ◌≤◌, ◌<◌, IfOk};
ghost use Rattle.sl_grammar.specs.Means.Steps.{Reads};
ghost use Rattle.sl_expressions.specs.Means.Nests.{Nests, tall_expr};
ghost use Rattle.sl_expressions.specs.Means.Reader as spec;

use sl_grammar::{Fault, Tokens};
use sl_syntax::Expr;
use std::alloc::Global;

/// Reads what stands in an expression. `inner` reads expressions that are less high than the number that it is given,
/// so that each rule is proved by itself.
#[derive(Drop)]
pub struct Nested<F> {
    pub alloc: Global,
    /// How many nodes may still stand over a leaf.
    pub depth_left: usize,
    pub inner: F,
}

impl<F: Fn(Global, &mut Tokens<'_>, usize, u8) -> Result<(Expr, usize), Fault>> Nested<F> {
    /// An expression that is less high than the depth.
    pub fn inner(
        &self,
        tokens: &mut Tokens<'_>,
        depth: usize,
        least: u8,
    ) -> Result<(Expr, usize), Fault>
        requires reader { Nests self.now.depth_left (F.pre self.now.inner) (F.post self.now.inner) }
        requires within { depth ≤ self.now.depth_left }
        ensures reads { Reads tall_expr (spec.expr depth least tokens.old) result tokens.new }
        ensures low { IfOk result (λ x. x.1 < depth) }
    {
        (self.inner)(self.alloc, tokens, depth, least)
    }
}
