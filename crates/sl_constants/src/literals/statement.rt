//! The literals of statements.
ghost use Rattle.std.specs.Prelude.{◌≡◌, ◌++◌, OnOk};
ghost use Rattle.sl_syntax.specs.TreeView.{stmt_of, item_of, items_of};
ghost use Rattle.sl_typing.specs.Literals.{literals_of_stmt, literals_of_item, literals_of_items};

use crate::literals::effect::{
    push_cond, push_declaration, push_effect, push_first, push_last, push_test, push_value,
};
use sl_base::Items;
use sl_syntax::{Item, Stmt};
use std::alloc::AllocError;

/// Puts the literals of a statement behind the others.
#[cycle(statement)]
fn push_stmt(out: &mut Items<i64>, x: &Stmt) -> Result<(), AllocError>
    ensures { OnOk result (out.new ≡ out.old ++ literals_of_stmt (stmt_of x.now)) }
{
    match x {
        Stmt::Block(block) => push_items(out, &block.items),
        Stmt::If {
            cond,
            then,
            otherwise,
            ..
        } => {
            push_cond(out, cond)?;
            push_stmt(out, then)?;
            match otherwise {
                Some(otherwise) => push_stmt(out, otherwise),
                None => Ok(()),
            }
        }
        Stmt::While { cond, body, .. } => {
            push_cond(out, cond)?;
            push_stmt(out, body)
        }
        Stmt::For {
            first,
            cond,
            step,
            body,
            ..
        } => {
            push_first(out, first)?;
            push_test(out, cond)?;
            push_last(out, step)?;
            push_stmt(out, body)
        }
        Stmt::RangeFor { body, .. } => push_stmt(out, body),
        Stmt::Break { .. } => Ok(()),
        Stmt::Continue { .. } => Ok(()),
        Stmt::Return { value, .. } => push_value(out, value),
        Stmt::Effect { effect, .. } => push_effect(out, effect),
    }
}

/// Puts those of an item of a block behind the others.
#[cycle(statement)]
#[tactic(auto, using(crate::proofs::StatementLiterals::item_laws))]
fn push_item(out: &mut Items<i64>, x: &Item) -> Result<(), AllocError>
    ensures { OnOk result (out.new ≡ out.old ++ literals_of_item (item_of x.now)) }
{
    match x {
        Item::Declaration(declaration) => push_declaration(out, declaration),
        Item::Statement(stmt) => push_stmt(out, stmt),
    }
}

/// Puts those of the items of a block behind the others.
#[cycle(statement)]
pub fn push_items(out: &mut Items<i64>, xs: &[Item]) -> Result<(), AllocError>
    ensures { OnOk result (out.new ≡ out.old ++ literals_of_items (items_of xs.now)) }
{
    for x in xs {
        push_item(out, x)?;
    }
    Ok(())
}
