ghost use Rattle.std.specs.Prelude.{◌≡◌, ◌≤◌, ◌<◌, ◌+◌, ◌-◌, IfOk};
ghost use Rattle.sl_grammar.specs.Means.Steps.{Reads};
ghost use Rattle.sl_grammar.specs.Means.Expressions as steps;
ghost use Rattle.sl_expressions.specs.Means.Nests.{Nests, OkOrMemory, called, nested, tall_expr};
ghost use Rattle.sl_expressions.specs.Means.Reader as spec;
ghost use Rattle.sl_syntax.specs.Tree as tree;

use crate::expression::nested::Nested;
use sl_base::{Mark, Place};
use sl_grammar::{Fault, Tokens, binary_level, goes_on, infix_of};
use sl_syntax::{BinaryOperator, Expr, Identifier, PostfixOperator, Selector, TokenKind};
use std::alloc::Global;

impl<F: Fn(Global, &mut Tokens<'_>, usize, u8) -> Result<(Expr, usize), Fault>> Nested<F> {
    /// An expression whose operators bind at least so tightly.
    #[tactic(auto, unfolding(crate::specs::Means::Reader::from_operand))]
    pub fn from_operand(&self, tokens: &mut Tokens<'_>, least: u8) -> Result<(Expr, usize), Fault>
        requires { Nests self.now.depth_left (F.pre self.now.inner) (F.post self.now.inner) }
        ensures reads { Reads tall_expr (nested spec.from_operand self.now.depth_left least tokens.old)
            result tokens.new }
        ensures low { IfOk result (λ x. x.1 ≤ self.now.depth_left) }
    {
        let first = self.operand(tokens)?;
        self.climb(tokens, least, first)
    }

    // Goes on as long as an operator binds tightly enough. Each turn makes the tree higher.
    #[tactic(auto, unfolding(crate::specs::Means::Reader::climb))]
    fn climb(
        &self,
        tokens: &mut Tokens<'_>,
        least: u8,
        mut left: (Expr, usize),
    ) -> Result<(Expr, usize), Fault>
        requires reader { Nests self.now.depth_left (F.pre self.now.inner) (F.post self.now.inner) }
        requires lower { left.1 ≤ self.now.depth_left }
        ensures reads { Reads tall_expr
            (nested spec.climb self.now.depth_left least self.now.depth_left (tall_expr left) tokens.old)
            result tokens.new }
        ensures low { IfOk result (λ x. x.1 ≤ self.now.depth_left) }
    {
        for _turn in 0..self.depth_left {
            if goes_on(tokens.kind()) < least {
                return Ok(left);
            }
            if left.1 >= self.depth_left {
                return Err(tokens.refuse());
            }
            left = self.operation(tokens, left)?;
        }
        if goes_on(tokens.kind()) < least {
            return Ok(left);
        }
        Err(tokens.refuse())
    }

    // The left side and what goes on with it.
    #[tactic(auto, unfolding(crate::specs::Means::Reader::operation))]
    fn operation(
        &self,
        tokens: &mut Tokens<'_>,
        left: (Expr, usize),
    ) -> Result<(Expr, usize), Fault>
        requires reader { Nests self.now.depth_left (F.pre self.now.inner) (F.post self.now.inner) }
        requires lower { left.1 < self.now.depth_left }
        ensures reads { Reads tall_expr (nested spec.operation self.now.depth_left (tall_expr left) tokens.old)
            result tokens.new }
        ensures low { IfOk result (λ x. x.1 ≤ self.now.depth_left) }
    {
        match infix_of(tokens.kind()) {
            Some(operator) => self.combined(tokens, left, operator),
            None => self.piece(tokens, left),
        }
    }

    #[tactic(auto, using(crate::proofs::Views::expr_views), unfolding(crate::specs::Means::Reader::combined))]
    fn combined(
        &self,
        tokens: &mut Tokens<'_>,
        left: (Expr, usize),
        operator: BinaryOperator,
    ) -> Result<(Expr, usize), Fault>
        requires reader { Nests self.now.depth_left (F.pre self.now.inner) (F.post self.now.inner) }
        requires lower { left.1 < self.now.depth_left }
        ensures reads { Reads tall_expr
            (nested spec.combined self.now.depth_left (tall_expr left) operator tokens.old)
            result tokens.new }
        ensures low { IfOk result (λ x. x.1 ≤ self.now.depth_left) }
    {
        let (tree, height) = left;
        let place = tokens.place();
        tokens.skip();
        let (right, other) = self.inner(tokens, self.depth_left, binary_level(operator) + 1)?;
        let left = Box::new(self.alloc, tree)?;
        let right = Box::new(self.alloc, right)?;
        Ok((
            Expr::Binary {
                left,
                operator,
                place,
                right,
            },
            height.max(other) + 1,
        ))
    }

    // A piece behind an operand.
    #[tactic(auto, unfolding(crate::specs::Means::Reader::piece))]
    fn piece(&self, tokens: &mut Tokens<'_>, left: (Expr, usize)) -> Result<(Expr, usize), Fault>
        requires reader { Nests self.now.depth_left (F.pre self.now.inner) (F.post self.now.inner) }
        requires lower { left.1 < self.now.depth_left }
        ensures reads { Reads tall_expr (nested spec.piece self.now.depth_left (tall_expr left) tokens.old)
            result tokens.new }
        ensures low { IfOk result (λ x. x.1 ≤ self.now.depth_left) }
    {
        match tokens.kind() {
            TokenKind::Mark(Mark::PlusPlus) => self.postfixed(
                tokens,
                left,
                PostfixOperator::Increment,
            ),
            TokenKind::Mark(Mark::MinusMinus) => self.postfixed(
                tokens,
                left,
                PostfixOperator::Decrement,
            ),
            TokenKind::Mark(Mark::LeftBracket) => self.indexed(tokens, left),
            TokenKind::Mark(Mark::Dot) => self.dotted(tokens, left),
            TokenKind::Mark(Mark::Arrow) => self.pointed(tokens, left),
            _ => Err(tokens.refuse()),
        }
    }

    #[tactic(auto, using(crate::proofs::Views::expr_views))]
    fn postfixed(
        &self,
        tokens: &mut Tokens<'_>,
        left: (Expr, usize),
        operator: PostfixOperator,
    ) -> Result<(Expr, usize), Fault>
        requires lower { left.1 < self.now.depth_left }
        ensures reads { Reads tall_expr
            (nested steps.postfixed self.now.depth_left (tall_expr left) operator tokens.old)
            result tokens.new }
        ensures low { IfOk result (λ x. x.1 ≤ self.now.depth_left) }
    {
        let (tree, height) = left;
        let place = tokens.place();
        tokens.skip();
        let operand = Box::new(self.alloc, tree)?;
        Ok((
            Expr::Postfix {
                operand,
                operator,
                place,
            },
            height + 1,
        ))
    }

    #[tactic(auto, using(crate::proofs::Views::expr_views), unfolding(crate::specs::Means::Reader::indexed))]
    fn indexed(&self, tokens: &mut Tokens<'_>, left: (Expr, usize)) -> Result<(Expr, usize), Fault>
        requires reader { Nests self.now.depth_left (F.pre self.now.inner) (F.post self.now.inner) }
        requires lower { left.1 < self.now.depth_left }
        ensures reads { Reads tall_expr (nested spec.indexed self.now.depth_left (tall_expr left) tokens.old)
            result tokens.new }
        ensures low { IfOk result (λ x. x.1 ≤ self.now.depth_left) }
    {
        let (tree, height) = left;
        let place = tokens.place();
        tokens.skip();
        let (index, other) = self.inner(tokens, self.depth_left, 1)?;
        tokens.mark(Mark::RightBracket)?;
        let object = Box::new(self.alloc, tree)?;
        let index = Box::new(self.alloc, index)?;
        Ok((
            Expr::Index {
                object,
                place,
                index,
            },
            height.max(other) + 1,
        ))
    }

    // `.` and a member, or a call of it.
    #[tactic(auto, unfolding(crate::specs::Means::Reader::dotted))]
    fn dotted(&self, tokens: &mut Tokens<'_>, left: (Expr, usize)) -> Result<(Expr, usize), Fault>
        requires reader { Nests self.now.depth_left (F.pre self.now.inner) (F.post self.now.inner) }
        requires lower { left.1 < self.now.depth_left }
        ensures reads { Reads tall_expr (nested spec.dotted self.now.depth_left (tall_expr left) tokens.old)
            result tokens.new }
        ensures low { IfOk result (λ x. x.1 ≤ self.now.depth_left) }
    {
        let place = tokens.place();
        tokens.skip();
        let member = tokens.identifier()?;
        if tokens.sees(Mark::LeftParenthesis) {
            self.member_call(tokens, left, member)
        } else {
            self.member(left, Selector::Dot, place, member)
        }
    }

    // `->` and a member.
    #[tactic(auto, unfolding(crate::specs::Means::Reader::pointed))]
    fn pointed(&self, tokens: &mut Tokens<'_>, left: (Expr, usize)) -> Result<(Expr, usize), Fault>
        requires lower { left.1 < self.now.depth_left }
        ensures reads { Reads tall_expr (nested spec.pointed self.now.depth_left (tall_expr left) tokens.old)
            result tokens.new }
        ensures low { IfOk result (λ x. x.1 ≤ self.now.depth_left) }
    {
        let place = tokens.place();
        tokens.skip();
        let member = tokens.identifier()?;
        self.member(left, Selector::Arrow, place, member)
    }

    #[tactic(auto, using(crate::proofs::Views::expr_views))]
    fn member(
        &self,
        left: (Expr, usize),
        selector: Selector,
        place: Place,
        member: Identifier,
    ) -> Result<(Expr, usize), Fault>
        requires lower { left.1 < self.now.depth_left }
        ensures reads { OkOrMemory result
            (λ x. tall_expr x ≡ (tree.member (tall_expr left).0 selector place member, left.1 + 1)) }
        ensures low { IfOk result (λ x. x.1 ≤ self.now.depth_left) }
    {
        let (tree, height) = left;
        let object = Box::new(self.alloc, tree)?;
        Ok((
            Expr::Member {
                object,
                selector,
                place,
                member,
            },
            height + 1,
        ))
    }

    #[tactic(auto, using(crate::proofs::Views::expr_views))]
    fn member_call(
        &self,
        tokens: &mut Tokens<'_>,
        left: (Expr, usize),
        function: Identifier,
    ) -> Result<(Expr, usize), Fault>
        requires reader { Nests self.now.depth_left (F.pre self.now.inner) (F.post self.now.inner) }
        requires lower { left.1 < self.now.depth_left }
        ensures reads { Reads tall_expr (nested called self.now.depth_left (tall_expr left) function tokens.old)
            result tokens.new }
        ensures low { IfOk result (λ x. x.1 ≤ self.now.depth_left) }
    {
        let (tree, height) = left;
        let (arguments, other) = self.arguments(tokens)?;
        let object = Box::new(self.alloc, tree)?;
        Ok((
            Expr::MemberCall {
                object,
                function,
                arguments,
            },
            height.max(other) + 1,
        ))
    }
}
