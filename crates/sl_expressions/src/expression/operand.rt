ghost use Rattle.std.specs.Prelude.{◌≡◌, ◌≤◌, ◌<◌, ◌-◌, drop, IfOk};
ghost use Rattle.sl_grammar.specs.Means.Steps.{Reads, here, number_at};
ghost use Rattle.sl_syntax.specs.Tree.{number, truth};
ghost use Rattle.sl_syntax.specs.TreeView.{expr_of};
ghost use Rattle.sl_grammar.specs.Means.Expressions.{call, operand_by};
ghost use Rattle.sl_expressions.specs.Means.Nests.{Nests, nested, tall_expr, tall_exprs};
ghost use Rattle.sl_expressions.specs.Means.Reader as spec;

use crate::expression::nested::Nested;
use sl_base::Mark;
use sl_grammar::{Fault, Tokens};
use sl_syntax::{Expr, Identifier, PrefixOperator, TokenKind};
use std::alloc::Global;

impl<F: Fn(Global, &mut Tokens<'_>, usize, u8) -> Result<(Expr, usize), Fault>> Nested<F> {
    /// What begins an expression: an operand with the operators before it.
    #[tactic(auto, unfolding(crate::specs::Means::Reader::operand))]
    pub fn operand(&self, tokens: &mut Tokens<'_>) -> Result<(Expr, usize), Fault>
        requires { Nests self.now.depth_left (F.pre self.now.inner) (F.post self.now.inner) }
        ensures reads { Reads tall_expr (nested spec.operand self.now.depth_left tokens.old) result tokens.new }
        ensures low { IfOk result (λ x. x.1 ≤ self.now.depth_left) }
    {
        match tokens.kind() {
            TokenKind::Number => Ok((number(tokens), 0)),
            TokenKind::Truth(value) => Ok((truth(tokens, value), 0)),
            TokenKind::Name => self.named(tokens),
            TokenKind::Library => self.library_call(tokens),
            TokenKind::Mark(mark) => self.marked(tokens, mark),
            _ => Err(tokens.refuse()),
        }
    }

    // An expression that begins with this mark.
    fn marked(&self, tokens: &mut Tokens<'_>, mark: Mark) -> Result<(Expr, usize), Fault>
        requires { Nests self.now.depth_left (F.pre self.now.inner) (F.post self.now.inner) }
        ensures reads { Reads tall_expr (nested operand_by self.now.depth_left (TokenKind.Mark mark) tokens.old)
            result tokens.new }
        ensures low { IfOk result (λ x. x.1 ≤ self.now.depth_left) }
    {
        match mark {
            Mark::LeftParenthesis => self.parentheses(tokens),
            Mark::Not => self.prefixed(tokens, PrefixOperator::Not),
            Mark::Minus => self.prefixed(tokens, PrefixOperator::Negate),
            Mark::Star => self.prefixed(tokens, PrefixOperator::Dereference),
            Mark::PlusPlus => self.prefixed(tokens, PrefixOperator::Increment),
            Mark::MinusMinus => self.prefixed(tokens, PrefixOperator::Decrement),
            _ => Err(tokens.refuse()),
        }
    }

    #[tactic(auto, using(crate::proofs::Views::expr_views), unfolding(crate::specs::Means::Reader::parentheses))]
    fn parentheses(&self, tokens: &mut Tokens<'_>) -> Result<(Expr, usize), Fault>
        requires { Nests self.now.depth_left (F.pre self.now.inner) (F.post self.now.inner) }
        ensures reads { Reads tall_expr (nested spec.parentheses self.now.depth_left tokens.old) result tokens.new }
        ensures low { IfOk result (λ x. x.1 ≤ self.now.depth_left) }
    {
        if self.depth_left == 0 {
            return Err(tokens.refuse());
        }
        let place = tokens.place();
        tokens.skip();
        let (tree, height) = self.inner(tokens, self.depth_left, 1)?;
        tokens.mark(Mark::RightParenthesis)?;
        let inner = Box::new(self.alloc, tree)?;
        Ok((Expr::Parentheses { place, inner }, height + 1))
    }

    #[tactic(auto, using(crate::proofs::Views::expr_views), unfolding(crate::specs::Means::Reader::prefixed))]
    fn prefixed(
        &self,
        tokens: &mut Tokens<'_>,
        operator: PrefixOperator,
    ) -> Result<(Expr, usize), Fault>
        requires { Nests self.now.depth_left (F.pre self.now.inner) (F.post self.now.inner) }
        ensures reads { Reads tall_expr (nested spec.prefixed self.now.depth_left operator tokens.old)
            result tokens.new }
        ensures low { IfOk result (λ x. x.1 ≤ self.now.depth_left) }
    {
        if self.depth_left == 0 {
            return Err(tokens.refuse());
        }
        let place = tokens.place();
        tokens.skip();
        let (tree, height) = self.inner(tokens, self.depth_left, 7)?;
        let operand = Box::new(self.alloc, tree)?;
        Ok((
            Expr::Prefix {
                operator,
                place,
                operand,
            },
            height + 1,
        ))
    }

    // A name, or a call of a function of the program.
    #[tactic(auto, unfolding(crate::specs::Means::Reader::named))]
    fn named(&self, tokens: &mut Tokens<'_>) -> Result<(Expr, usize), Fault>
        requires { Nests self.now.depth_left (F.pre self.now.inner) (F.post self.now.inner) }
        ensures reads { Reads tall_expr (nested spec.named self.now.depth_left tokens.old) result tokens.new }
        ensures low { IfOk result (λ x. x.1 ≤ self.now.depth_left) }
    {
        let name = tokens.identifier()?;
        if tokens.sees(Mark::LeftParenthesis) {
            self.call(tokens, name)
        } else {
            Ok((Expr::Name(name), 0))
        }
    }

    #[tactic(auto, using(crate::proofs::Views::expr_views))]
    fn call(&self, tokens: &mut Tokens<'_>, function: Identifier) -> Result<(Expr, usize), Fault>
        requires { Nests self.now.depth_left (F.pre self.now.inner) (F.post self.now.inner) }
        ensures reads { Reads tall_expr (nested call self.now.depth_left function tokens.old) result tokens.new }
        ensures low { IfOk result (λ x. x.1 ≤ self.now.depth_left) }
    {
        if self.depth_left == 0 {
            return Err(tokens.refuse());
        }
        let (arguments, height) = self.arguments(tokens)?;
        Ok((
            Expr::Call {
                function,
                arguments,
            },
            height + 1,
        ))
    }

    #[tactic(auto, using(crate::proofs::Views::expr_views), unfolding(crate::specs::Means::Reader::library_call))]
    fn library_call(&self, tokens: &mut Tokens<'_>) -> Result<(Expr, usize), Fault>
        requires { Nests self.now.depth_left (F.pre self.now.inner) (F.post self.now.inner) }
        ensures reads { Reads tall_expr (nested spec.library_call self.now.depth_left tokens.old) result tokens.new }
        ensures low { IfOk result (λ x. x.1 ≤ self.now.depth_left) }
    {
        if self.depth_left == 0 {
            return Err(tokens.refuse());
        }
        let function = tokens.library()?;
        let (arguments, height) = self.arguments(tokens)?;
        Ok((
            Expr::LibraryCall {
                function,
                arguments,
            },
            height + 1,
        ))
    }

    /// What stands in parentheses behind the name of a function, with them.
    #[tactic(auto, unfolding(crate::specs::Means::Reader::arguments))]
    pub fn arguments(&self, tokens: &mut Tokens<'_>) -> Result<(Vec<Expr>, usize), Fault>
        requires reader { Nests self.now.depth_left (F.pre self.now.inner) (F.post self.now.inner) }
        requires some { 0 < self.now.depth_left }
        ensures reads { Reads tall_exprs (nested spec.arguments self.now.depth_left tokens.old) result tokens.new }
        ensures low { IfOk result (λ x. x.1 < self.now.depth_left) }
    {
        tokens.mark(Mark::LeftParenthesis)?;
        let list = self.list_before(tokens, Mark::RightParenthesis)?;
        tokens.mark(Mark::RightParenthesis)?;
        Ok(list)
    }
}

// The number that stands next.
fn number(tokens: &mut Tokens<'_>) -> Expr
    ensures tree { expr_of result ≡ number (here tokens.old) (number_at tokens.old) }
    ensures rest { tokens.new ≡ drop 1 tokens.old }
{
    let place = tokens.place();
    let value = tokens.number();
    tokens.skip();
    Expr::Number { place, value }
}

// The truth value that stands next.
fn truth(tokens: &mut Tokens<'_>, value: bool) -> Expr
    ensures tree { expr_of result ≡ truth (here tokens.old) value }
    ensures rest { tokens.new ≡ drop 1 tokens.old }
{
    let place = tokens.place();
    tokens.skip();
    Expr::Truth { place, value }
}
