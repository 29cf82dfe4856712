//! The words of statements.
ghost use Rattle.std.specs.Prelude.{◌≡◌, ◌++◌, [], ◌∷◌, OnOk, option_map, codes};
ghost use Rattle.sl_syntax.specs.TreeView.{expr_of, effect_of, cond_of, first_of, stmt_of, item_of, items_of};
ghost use Rattle.sl_syntax.specs.Tree as tree;
ghost use Rattle.sl_syntax.specs.Written as spec;
ghost use Rattle.sl_syntax.specs.Written.{words_of, written, effect_written, cond_written, first_written};
ghost use Rattle.sl_syntax.specs.Written.{option_written, tested, stmt_written, item_written, items_written};

use crate::tree::{Block, Cond, Effect, Element, Expr, First, Identifier, Item, Stmt};
use crate::write::declaration::{write_declaration, write_reference, write_value};
use crate::write::effect::{write_cond, write_effect};
use crate::write::expr::write_expr;
use crate::write::word::{element_word, key, scalar_word, write_mark, write_name};
use sl_base::{Items, Mark, Word};
use std::alloc::{AllocError, Global};

/// Writes the first part of a `for`.
fn write_first(alloc: Global, out: &mut Items<Word>, x: &First) -> Result<(), AllocError>
    ensures { OnOk result (out.new ≡ out.old ++ words_of (first_written (first_of x.now))) }
{
    match x {
        First::Scalar {
            scalar,
            name,
            value,
            ..
        } => {
            out.push(scalar_word(*scalar))?;
            write_name(out, name)?;
            write_value(out, value)
        }
        First::Auto { name, value, .. } => {
            out.push(key(b"auto"))?;
            write_name(out, name)?;
            write_value(out, value)
        }
        First::Effect(effect) => write_effect(alloc, out, effect),
    }
}

/// Writes the first part of a `for`, where it has one.
fn write_optional_first(
    alloc: Global,
    out: &mut Items<Word>,
    x: &Option<First>,
) -> Result<(), AllocError>
    ensures { OnOk result (out.new ≡ out.old ++ words_of (option_written first_written (option_map first_of x.now))) }
{
    match x {
        Some(x) => write_first(alloc, out, x),
        None => Ok(()),
    }
}

/// Writes the condition of a `for`, where it has one.
fn write_optional_cond(out: &mut Items<Word>, x: &Option<Cond>) -> Result<(), AllocError>
    ensures { OnOk result (out.new ≡ out.old ++ words_of (option_written cond_written (option_map cond_of x.now))) }
{
    match x {
        Some(x) => write_cond(out, x),
        None => Ok(()),
    }
}

/// Writes the last part of a `for`, where it has one.
fn write_optional_effect(
    alloc: Global,
    out: &mut Items<Word>,
    x: &Option<Effect>,
) -> Result<(), AllocError>
    ensures { OnOk result (out.new ≡ out.old ++ words_of (option_written effect_written (option_map effect_of x.now))) }
{
    match x {
        Some(x) => write_effect(alloc, out, x),
        None => Ok(()),
    }
}

/// Writes what is given back, where something is.
fn write_optional_expr(out: &mut Items<Word>, x: &Option<Expr>) -> Result<(), AllocError>
    ensures { OnOk result (out.new ≡ out.old ++ words_of (option_written written (option_map expr_of x.now))) }
{
    match x {
        Some(x) => write_expr(out, x),
        None => Ok(()),
    }
}

/// Writes the parts of a `for`, in parentheses.
fn write_parts(
    alloc: Global,
    out: &mut Items<Word>,
    first: &Option<First>,
    cond: &Option<Cond>,
    step: &Option<Effect>,
) -> Result<(), AllocError>
    ensures { OnOk result (out.new ≡ out.old ++ (Word.Mark Mark.LeftParenthesis
        ∷ (words_of (option_written first_written (option_map first_of first.now)) ++ Word.Mark Mark.Semicolon
        ∷ (words_of (option_written cond_written (option_map cond_of cond.now)) ++ Word.Mark Mark.Semicolon
        ∷ (words_of (option_written effect_written (option_map effect_of step.now))
        ++ Word.Mark Mark.RightParenthesis ∷ []))))) }
{
    write_mark(out, Mark::LeftParenthesis)?;
    write_optional_first(alloc, out, first)?;
    write_mark(out, Mark::Semicolon)?;
    write_optional_cond(out, cond)?;
    write_mark(out, Mark::Semicolon)?;
    write_optional_effect(alloc, out, step)?;
    write_mark(out, Mark::RightParenthesis)
}

/// Writes what is tested, in parentheses.
#[tactic(auto, using(crate::proofs::WrittenLaws::appends))]
fn write_tested(out: &mut Items<Word>, x: &Cond) -> Result<(), AllocError>
    ensures { OnOk result (out.new ≡ out.old ++ words_of (tested (cond_of x.now) [])) }
{
    write_mark(out, Mark::LeftParenthesis)?;
    write_cond(out, x)?;
    write_mark(out, Mark::RightParenthesis)
}

/// Writes a word and a semicolon.
fn write_ended(out: &mut Items<Word>, word: Word) -> Result<(), AllocError>
    ensures { OnOk result (out.new ≡ out.old ++ word ∷ Word.Mark Mark.Semicolon ∷ []) }
{
    out.push(word)?;
    write_mark(out, Mark::Semicolon)
}

/// Writes how a range-for takes an element.
fn write_element(out: &mut Items<Word>, x: Element) -> Result<(), AllocError>
    ensures { OnOk result (out.new ≡ out.old ++ words_of (spec.element_written x)) }
{
    match x {
        Element::Value(element) => out.push(element_word(element)),
        Element::Reference(head) => write_reference(out, head),
    }
}

/// Writes the head of a range-for.
fn write_range(
    out: &mut Items<Word>,
    element: Element,
    name: &Identifier,
    container: &Identifier,
) -> Result<(), AllocError>
    ensures { OnOk result
        (out.new ≡ out.old ++ (Word.Key (codes "for") ∷ Word.Mark Mark.LeftParenthesis
        ∷ (words_of (spec.element_written element) ++ Word.Name name.now.name ∷ Word.Mark Mark.Colon
        ∷ Word.Name container.now.name ∷ Word.Mark Mark.RightParenthesis ∷ []))) }
{
    out.push(key(b"for"))?;
    write_mark(out, Mark::LeftParenthesis)?;
    write_element(out, element)?;
    write_name(out, name)?;
    write_mark(out, Mark::Colon)?;
    write_name(out, container)?;
    write_mark(out, Mark::RightParenthesis)
}

/// Writes a statement.
#[cycle(statement)]
#[tactic(auto, using(crate::proofs::StatementWords::stmt_words))]
fn write_stmt(alloc: Global, out: &mut Items<Word>, x: &Stmt) -> Result<(), AllocError>
    ensures { OnOk result (out.new ≡ out.old ++ words_of (stmt_written (stmt_of x.now))) }
{
    match x {
        Stmt::Block(block) => write_block(alloc, out, block),
        Stmt::If {
            cond,
            then,
            otherwise,
            ..
        } => {
            out.push(key(b"if"))?;
            write_tested(out, cond)?;
            write_stmt(alloc, out, then)?;
            if let Some(otherwise) = otherwise {
                out.push(key(b"else"))?;
                write_stmt(alloc, out, otherwise)?;
            }
            Ok(())
        }
        Stmt::While { cond, body, .. } => {
            out.push(key(b"while"))?;
            write_tested(out, cond)?;
            write_stmt(alloc, out, body)
        }
        Stmt::For {
            first,
            cond,
            step,
            body,
            ..
        } => {
            out.push(key(b"for"))?;
            write_parts(alloc, out, first, cond, step)?;
            write_stmt(alloc, out, body)
        }
        Stmt::RangeFor {
            element,
            name,
            container,
            body,
            ..
        } => {
            write_range(out, *element, name, container)?;
            write_stmt(alloc, out, body)
        }
        Stmt::Break { .. } => write_ended(out, key(b"break")),
        Stmt::Continue { .. } => write_ended(out, key(b"continue")),
        Stmt::Return { value, .. } => {
            out.push(key(b"return"))?;
            write_optional_expr(out, value)?;
            write_mark(out, Mark::Semicolon)
        }
        Stmt::Effect { effect, .. } => {
            write_effect(alloc, out, effect)?;
            write_mark(out, Mark::Semicolon)
        }
    }
}

/// Writes a block.
#[cycle(statement)]
#[tactic(auto, using(crate::proofs::WrittenLaws::appends))]
pub fn write_block(alloc: Global, out: &mut Items<Word>, block: &Block) -> Result<(), AllocError>
    ensures { OnOk result
        (out.new ≡ out.old
        ++ words_of (stmt_written (tree.block block.now.place (items_of block.now.items.items) block.now.close))) }
{
    write_mark(out, Mark::LeftBrace)?;
    write_items(alloc, out, &block.items)?;
    write_mark(out, Mark::RightBrace)
}

/// Writes the items of a block.
#[cycle(statement)]
fn write_items(alloc: Global, out: &mut Items<Word>, items: &[Item]) -> Result<(), AllocError>
    ensures { OnOk result (out.new ≡ out.old ++ words_of (items_written (items_of items.now))) }
{
    for item in items {
        write_item(alloc, out, item)?;
    }
    Ok(())
}

/// Writes an item of a block.
#[cycle(statement)]
#[tactic(auto, using(crate::proofs::WrittenLaws::appends))]
fn write_item(alloc: Global, out: &mut Items<Word>, item: &Item) -> Result<(), AllocError>
    ensures { OnOk result (out.new ≡ out.old ++ words_of (item_written (item_of item.now))) }
{
    match item {
        Item::Declaration(declaration) => {
            write_declaration(out, declaration)?;
            write_mark(out, Mark::Semicolon)
        }
        Item::Statement(stmt) => write_stmt(alloc, out, stmt),
    }
}
