//! `for`, and the `for` over a container.
ghost use Rattle.std.specs.Prelude.{◌≡◌, ◌<◌};
ghost use Rattle.sl_base.specs.declared.limits.TheConstants.{TREE_DEPTH};
ghost use Rattle.sl_grammar.specs.Means.Steps.{Reads};
ghost use Rattle.sl_grammar.specs.Means.Statements as steps;
ghost use Rattle.sl_parser.specs.Means.Reader as spec;
ghost use Rattle.sl_parser.specs.Means.StatementViews.{Holds, tall_first, tall_stmt, within};
ghost use Rattle.sl_parser.specs.Means.StatementViews.{tall_optional_cond, tall_optional_effect};
ghost use Rattle.sl_syntax.specs.TreeView.{expr_of, first_of};

use crate::reference::reference_head;
use crate::statement::within::Within;
use sl_base::{Mark, Place, Scalar};
use sl_expressions::effect::{cond, effect};
use sl_expressions::expression::expr;
use sl_grammar::{Fault, Tokens};
use sl_syntax::{Cond, Effect, Element, ElementType, Expr, First, Identifier, Stmt, TokenKind};
use std::alloc::Global;

// Whether the variable may be that of a `for` over a container. Without a scalar its type is `auto`.
fn ranges(scalar: Option<Scalar>) -> bool
    ensures { result ≡ steps.ranges scalar }
{
    match scalar {
        None | Some(Scalar::Int) => true,
        Some(_) => false,
    }
}

// The type of such a variable.
fn element_of(scalar: Option<Scalar>) -> ElementType
    ensures { result ≡ steps.element_of scalar }
{
    match scalar {
        None => ElementType::Auto,
        Some(_) => ElementType::Int,
    }
}

// The first part of a `for` that declares its variable.
fn declares(scalar: Option<Scalar>, place: Place, name: Identifier, value: Expr) -> First
    ensures { first_of result ≡ steps.first_of scalar place name (expr_of value) }
{
    match scalar {
        None => First::Auto { place, name, value },
        Some(scalar) => First::Scalar {
            place,
            scalar,
            name,
            value,
        },
    }
}

impl<F: Fn(Global, &mut Tokens<'_>, usize) -> Result<Stmt, Fault>> Within<F> {
    #[tactic(auto, unfolding(crate::specs::Means::Reader::for_loop))]
    pub fn for_loop(&self, tokens: &mut Tokens<'_>) -> Result<Stmt, Fault>
        requires reader { Holds self.now.depth_left (F.pre self.now.inner) (F.post self.now.inner) }
        requires small { self.now.depth_left < TREE_DEPTH }
        ensures { Reads tall_stmt (within spec.for_loop self.now.depth_left tokens.old) result tokens.new }
    {
        if self.depth_left == 0 {
            return Err(tokens.refuse());
        }
        let place = tokens.place();
        tokens.skip();
        tokens.mark(Mark::LeftParenthesis)?;
        self.for_head(tokens, place)
    }

    // Behind the parenthesis.
    #[tactic(auto, unfolding(crate::specs::Means::Reader::for_head))]
    fn for_head(&self, tokens: &mut Tokens<'_>, place: Place) -> Result<Stmt, Fault>
        requires reader { Holds self.now.depth_left (F.pre self.now.inner) (F.post self.now.inner) }
        requires small { self.now.depth_left < TREE_DEPTH }
        ensures { Reads tall_stmt (within spec.for_head self.now.depth_left place tokens.old) result tokens.new }
    {
        if tokens.sees_reference() {
            return self.reference_range(tokens, place);
        }
        match tokens.kind() {
            TokenKind::Scalar(scalar) => self.declared_first(tokens, place, Some(scalar)),
            TokenKind::Auto => self.declared_first(tokens, place, None),
            TokenKind::Mark(Mark::Semicolon) => self.for_behind(tokens, place, None),
            _ => self.effect_first(tokens, place),
        }
    }

    // A `for` over a container by reference, from the type of its variable on.
    #[tactic(auto, unfolding(crate::specs::Means::Reader::reference_range))]
    fn reference_range(&self, tokens: &mut Tokens<'_>, place: Place) -> Result<Stmt, Fault>
        requires { Holds self.now.depth_left (F.pre self.now.inner) (F.post self.now.inner) }
        ensures { Reads tall_stmt (within spec.reference_range self.now.depth_left place tokens.old)
            result tokens.new }
    {
        let head = reference_head(tokens)?;
        let name = tokens.identifier()?;
        self.range_behind(tokens, place, Element::Reference(head), name)
    }

    // A `for` whose first part is an effect.
    fn effect_first(&self, tokens: &mut Tokens<'_>, place: Place) -> Result<Stmt, Fault>
        requires reader { Holds self.now.depth_left (F.pre self.now.inner) (F.post self.now.inner) }
        requires small { self.now.depth_left < TREE_DEPTH }
        ensures { Reads tall_stmt
            (within steps.for_by self.now.depth_left place TokenKind.Other tokens.old)
            result tokens.new }
    {
        let effect = effect(self.alloc, tokens, self.depth_left)?;
        self.for_behind(tokens, place, Some(First::Effect(effect)))
    }

    // From the type of the variable on.
    #[tactic(auto, unfolding(crate::specs::Means::Reader::declared_first))]
    fn declared_first(
        &self,
        tokens: &mut Tokens<'_>,
        place: Place,
        scalar: Option<Scalar>,
    ) -> Result<Stmt, Fault>
        requires reader { Holds self.now.depth_left (F.pre self.now.inner) (F.post self.now.inner) }
        requires small { self.now.depth_left < TREE_DEPTH }
        ensures { Reads tall_stmt
            (within spec.declared_first self.now.depth_left place scalar tokens.old)
            result tokens.new }
    {
        let at = tokens.place();
        tokens.skip();
        let name = tokens.identifier()?;
        self.variable_behind(tokens, place, at, scalar, name)
    }

    // Behind the variable, whose type begins at `at`.
    #[tactic(auto, unfolding(crate::specs::Means::Reader::variable_behind))]
    fn variable_behind(
        &self,
        tokens: &mut Tokens<'_>,
        place: Place,
        at: Place,
        scalar: Option<Scalar>,
        name: Identifier,
    ) -> Result<Stmt, Fault>
        requires reader { Holds self.now.depth_left (F.pre self.now.inner) (F.post self.now.inner) }
        requires small { self.now.depth_left < TREE_DEPTH }
        ensures { Reads tall_stmt
            (within spec.variable_behind self.now.depth_left place at scalar name tokens.old)
            result tokens.new }
    {
        if ranges(scalar) && tokens.sees(Mark::Colon) {
            self.range_behind(tokens, place, Element::Value(element_of(scalar)), name)
        } else {
            self.valued_first(tokens, place, at, scalar, name)
        }
    }

    #[tactic(auto, unfolding(crate::specs::Means::Reader::valued_first))]
    fn valued_first(
        &self,
        tokens: &mut Tokens<'_>,
        place: Place,
        at: Place,
        scalar: Option<Scalar>,
        name: Identifier,
    ) -> Result<Stmt, Fault>
        requires reader { Holds self.now.depth_left (F.pre self.now.inner) (F.post self.now.inner) }
        requires small { self.now.depth_left < TREE_DEPTH }
        ensures { Reads tall_stmt
            (within spec.valued_first self.now.depth_left place at scalar name tokens.old)
            result tokens.new }
    {
        tokens.mark(Mark::Equal)?;
        let value = expr(self.alloc, tokens, self.depth_left, 1)?;
        let first = declares(scalar, at, name, value);
        self.for_behind(tokens, place, Some(first))
    }

    // Behind the variable of a `for` over a container.
    #[tactic(auto, using(crate::proofs::Views::stmt_views), unfolding(crate::specs::Means::Reader::range_behind))]
    fn range_behind(
        &self,
        tokens: &mut Tokens<'_>,
        place: Place,
        element: Element,
        name: Identifier,
    ) -> Result<Stmt, Fault>
        requires { Holds self.now.depth_left (F.pre self.now.inner) (F.post self.now.inner) }
        ensures { Reads tall_stmt
            (within spec.range_behind self.now.depth_left place element name tokens.old)
            result tokens.new }
    {
        tokens.mark(Mark::Colon)?;
        let container = tokens.identifier()?;
        tokens.mark(Mark::RightParenthesis)?;
        let tree = self.inner(tokens)?;
        let body = Box::new(self.alloc, tree)?;
        Ok(Stmt::RangeFor {
            place,
            element,
            name,
            container,
            body,
        })
    }

    // Behind the first part.
    #[tactic(auto, using(crate::proofs::Views::stmt_views), unfolding(crate::specs::Means::Reader::for_behind))]
    fn for_behind(
        &self,
        tokens: &mut Tokens<'_>,
        place: Place,
        first: Option<First>,
    ) -> Result<Stmt, Fault>
        requires reader { Holds self.now.depth_left (F.pre self.now.inner) (F.post self.now.inner) }
        requires small { self.now.depth_left < TREE_DEPTH }
        ensures { Reads tall_stmt
            (within spec.for_behind self.now.depth_left place (tall_first first) tokens.old)
            result tokens.new }
    {
        tokens.mark(Mark::Semicolon)?;
        let cond = self.optional_cond(tokens)?;
        tokens.mark(Mark::Semicolon)?;
        let step = self.optional_effect(tokens)?;
        tokens.mark(Mark::RightParenthesis)?;
        let tree = self.inner(tokens)?;
        let body = Box::new(self.alloc, tree)?;
        Ok(Stmt::For {
            place,
            first,
            cond,
            step,
            body,
        })
    }

    // The condition before a `;`, which may be left out.
    #[tactic(auto, unfolding(crate::specs::Means::Reader::optional_cond))]
    fn optional_cond(&self, tokens: &mut Tokens<'_>) -> Result<Option<Cond>, Fault>
        requires { self.now.depth_left < TREE_DEPTH }
        ensures { Reads tall_optional_cond (within spec.optional_cond self.now.depth_left tokens.old)
            result tokens.new }
    {
        if tokens.sees(Mark::Semicolon) {
            return Ok(None);
        }
        let tested = cond(self.alloc, tokens, self.depth_left)?;
        Ok(Some(tested))
    }

    // The last part before a `)`, which may be left out.
    #[tactic(auto, unfolding(crate::specs::Means::Reader::optional_effect))]
    fn optional_effect(&self, tokens: &mut Tokens<'_>) -> Result<Option<Effect>, Fault>
        requires { self.now.depth_left < TREE_DEPTH }
        ensures { Reads tall_optional_effect (within spec.optional_effect self.now.depth_left tokens.old)
            result tokens.new }
    {
        if tokens.sees(Mark::RightParenthesis) {
            return Ok(None);
        }
        let step = effect(self.alloc, tokens, self.depth_left)?;
        Ok(Some(step))
    }
}
