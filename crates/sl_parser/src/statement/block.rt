//! Blocks and their items.
ghost use Rattle.std.specs.Prelude.{◌≡◌, ◌<◌, ◌-◌, [], length};
ghost use Rattle.sl_base.specs.declared.limits.TheConstants.{TREE_DEPTH};
ghost use Rattle.sl_syntax.specs.declared.token_kind.TokenKind.TheVariants as k;
ghost use Rattle.sl_grammar.specs.Means.Steps.{Reads};
ghost use Rattle.sl_grammar.specs.Means.Declarations.{reference_declaration as refers};
ghost use Rattle.sl_grammar.specs.Means.Statements.{block, declared, is_item, item_by, stmt};
ghost use Rattle.sl_parser.specs.Means.Reader as spec;
ghost use Rattle.sl_parser.specs.Means.StatementViews.{Holds, tall_block, tall_item, tall_items, tall_stmt, within};

use crate::declaration::{
    auto_declaration, container_declaration, reference_declaration, scalar_declaration,
};
use crate::statement::within::Within;
use sl_base::{Form, Mark, Scalar};
use sl_grammar::{Fault, Tokens};
use sl_syntax::{Block, Item, Stmt, TokenKind};
use std::alloc::Global;

impl<F: Fn(Global, &mut Tokens<'_>, usize) -> Result<Stmt, Fault>> Within<F> {
    /// A block as a statement.
    #[tactic(auto, using(crate::proofs::Views::stmt_views))]
    pub fn block(&self, tokens: &mut Tokens<'_>) -> Result<Stmt, Fault>
        requires reader { Holds self.now.depth_left (F.pre self.now.inner) (F.post self.now.inner) }
        requires small { self.now.depth_left < TREE_DEPTH }
        ensures { Reads tall_stmt (within block self.now.depth_left tokens.old) result tokens.new }
    {
        let block = self.braced(tokens)?;
        Ok(Stmt::Block(block))
    }

    /// `{..}`
    #[tactic(auto, using(crate::proofs::Views::of_items), unfolding(crate::specs::Means::Reader::braced))]
    pub fn braced(&self, tokens: &mut Tokens<'_>) -> Result<Block, Fault>
        requires reader { Holds self.now.depth_left (F.pre self.now.inner) (F.post self.now.inner) }
        requires small { self.now.depth_left < TREE_DEPTH }
        ensures { Reads tall_block (within spec.braced self.now.depth_left tokens.old) result tokens.new }
    {
        let place = tokens.place();
        tokens.mark(Mark::LeftBrace)?;
        let items = self.items(tokens)?;
        let close = tokens.mark(Mark::RightBrace)?;
        Ok(Block {
            place,
            items,
            close,
        })
    }

    // The items before a closing brace.
    fn items(&self, tokens: &mut Tokens<'_>) -> Result<Vec<Item>, Fault>
        requires reader { Holds self.now.depth_left (F.pre self.now.inner) (F.post self.now.inner) }
        requires small { self.now.depth_left < TREE_DEPTH }
        ensures { Reads tall_items
            (spec.repeat is_item (spec.item self.now.depth_left (stmt self.now.depth_left)) (length tokens.old)
            ([], 0) tokens.old)
            result tokens.new }
    {
        let mut list = Vec::new(self.alloc);
        for _turn in 0..tokens.left() {
            if tokens.sees(Mark::RightBrace) {
                return Ok(list);
            }
            let tree = self.item(tokens)?;
            list.push(tree)?;
        }
        if !tokens.sees(Mark::RightBrace) {
            return Err(tokens.refuse());
        }
        Ok(list)
    }

    // An item, by its first word and, where that is a type, by whether a `&` is behind it.
    #[tactic(auto, unfolding(crate::specs::Means::Reader::item))]
    fn item(&self, tokens: &mut Tokens<'_>) -> Result<Item, Fault>
        requires reader { Holds self.now.depth_left (F.pre self.now.inner) (F.post self.now.inner) }
        requires small { self.now.depth_left < TREE_DEPTH }
        ensures { Reads tall_item
            (spec.item self.now.depth_left (stmt self.now.depth_left) tokens.old)
            result tokens.new }
    {
        if self.depth_left > 2 && tokens.sees_reference() {
            return self.reference_item(tokens);
        }
        match tokens.kind() {
            TokenKind::Scalar(scalar) => self.scalar_item(tokens, scalar),
            TokenKind::Auto => self.auto_item(tokens),
            TokenKind::Container(form) => self.container_item(tokens, form),
            _ => self.stmt_item(tokens),
        }
    }

    fn stmt_item(&self, tokens: &mut Tokens<'_>) -> Result<Item, Fault>
        requires { Holds self.now.depth_left (F.pre self.now.inner) (F.post self.now.inner) }
        ensures { Reads tall_item
            (item_by self.now.depth_left (stmt self.now.depth_left) k.Other tokens.old)
            result tokens.new }
    {
        let stmt = self.inner(tokens)?;
        Ok(Item::Statement(stmt))
    }

    fn reference_item(&self, tokens: &mut Tokens<'_>) -> Result<Item, Fault>
        requires deep { 2 < self.now.depth_left }
        requires small { self.now.depth_left < TREE_DEPTH }
        ensures { Reads tall_item
            (declared self.now.depth_left (refers (self.now.depth_left - 2)) tokens.old)
            result tokens.new }
    {
        let tree = reference_declaration(self.alloc, tokens, self.depth_left - 2)?;
        tokens.mark(Mark::Semicolon)?;
        Ok(Item::Declaration(tree))
    }

    fn scalar_item(&self, tokens: &mut Tokens<'_>, scalar: Scalar) -> Result<Item, Fault>
        requires { self.now.depth_left < TREE_DEPTH }
        ensures { Reads tall_item
            (item_by self.now.depth_left (stmt self.now.depth_left) (k.Scalar scalar) tokens.old)
            result tokens.new }
    {
        if self.depth_left <= 1 {
            return Err(tokens.refuse());
        }
        let tree = scalar_declaration(self.alloc, tokens, self.depth_left - 2, scalar)?;
        tokens.mark(Mark::Semicolon)?;
        Ok(Item::Declaration(tree))
    }

    fn auto_item(&self, tokens: &mut Tokens<'_>) -> Result<Item, Fault>
        requires { self.now.depth_left < TREE_DEPTH }
        ensures { Reads tall_item
            (item_by self.now.depth_left (stmt self.now.depth_left) k.Auto tokens.old)
            result tokens.new }
    {
        if self.depth_left <= 1 {
            return Err(tokens.refuse());
        }
        let tree = auto_declaration(self.alloc, tokens, self.depth_left - 2)?;
        tokens.mark(Mark::Semicolon)?;
        Ok(Item::Declaration(tree))
    }

    fn container_item(&self, tokens: &mut Tokens<'_>, form: Form) -> Result<Item, Fault>
        requires { self.now.depth_left < TREE_DEPTH }
        ensures { Reads tall_item
            (item_by self.now.depth_left (stmt self.now.depth_left) (k.Container form) tokens.old)
            result tokens.new }
    {
        if self.depth_left <= 1 {
            return Err(tokens.refuse());
        }
        let tree = container_declaration(self.alloc, tokens, self.depth_left - 2, form)?;
        tokens.mark(Mark::Semicolon)?;
        Ok(Item::Declaration(tree))
    }
}
