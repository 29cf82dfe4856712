//! Statements and the items of blocks.
ghost use Rattle.std.specs.Prelude.{◌≡◌, ◌++◌, option_map};
ghost use Rattle.sl_syntax.specs.Tree as tree;
ghost use Rattle.sl_syntax.specs.TreeView.{cond_of, effect_of, first_of as first_seen, stmt_of, item_of, items_of};
ghost use Rattle.sl_typing.specs.Contexts.{with_sites};
ghost use Rattle.sl_typing.specs.Flow.{after, after_item, after_items};
ghost use Rattle.sl_typing.specs.Sites.{brace_site, declares_container as declares};
ghost use Rattle.sl_typing.specs.StatementFaults.{site_faults, stmt_faults, item_faults, items_faults};
ghost use Rattle.sl_first_fault.specs.Means.Steps.{Answers};

use crate::faults::stop_at;
use crate::heads::{
    choice_condition, choice_fault, for_head, range_head, while_condition, while_fault,
};
use crate::jumps::{declared_item, effect_statement, give_back, jump};
use crate::stop::Stop;
use sl_base::Place;
use sl_contexts::Known;
use sl_expr_sites::pass_brace;
use sl_statement_types::{declares_container, site_fault};
use sl_syntax::{Block, Cond, Effect, Element, First, Identifier, Item, Stmt};
use std::alloc::Global;

/// The closing brace of a block with these items.
pub fn brace(known: &mut Known, items: &[Item], close: Place) -> Result<(), Stop>
    ensures { Answers result
        (site_faults known.old (declares (items_of items.now)) close)
        known.new (with_sites (brace_site (items_of items.now) close) known.old) }
{
    stop_at(site_fault(known, declares_container(items), close))?;
    pass_brace(known, items, close)?;
    Ok(())
}

/// A statement.
#[cycle(statement)]
#[tactic(auto, using(crate::proofs::StatementLaws::statement_views), unfolding(crate::specs::Means::Statements::stmt_faults, crate::specs::Means::Statements::after))]
fn statement(alloc: Global, known: &mut Known, x: &Stmt) -> Result<(), Stop>
    ensures { Answers result (stmt_faults known.old (stmt_of x.now)) known.new (after known.old (stmt_of x.now)) }
{
    match x {
        Stmt::Block(x) => block(alloc, known, x),
        Stmt::If {
            place,
            cond,
            then,
            otherwise,
        } => {
            let own = choice_fault(known, *place, cond);
            choice_condition(known, cond)?;
            statement(alloc, known, then)?;
            match otherwise {
                None => stop_at(own),
                Some(otherwise) => {
                    statement(alloc, known, otherwise)?;
                    stop_at(own)
                }
            }
        }
        Stmt::While { place, cond, body } => while_loop(alloc, known, body, *place, cond),
        Stmt::For {
            place,
            first,
            cond,
            step,
            body,
        } => for_loop(alloc, known, body, *place, first, cond, step),
        Stmt::RangeFor {
            place,
            element,
            name,
            container,
            body,
        } => range_loop(alloc, known, body, *place, *element, name, container),
        Stmt::Break { place } => jump(known, *place),
        Stmt::Continue { place } => jump(known, *place),
        Stmt::Return { place, value } => give_back(known, *place, value),
        Stmt::Effect { place, effect } => effect_statement(known, *place, effect),
    }
}

// A `while`.
#[cycle(statement)]
#[tactic(auto, unfolding(crate::specs::Means::Statements::stmt_faults, crate::specs::Means::Statements::after))]
fn while_loop(
    alloc: Global,
    known: &mut Known,
    body: &Stmt,
    place: Place,
    cond: &Cond,
) -> Result<(), Stop>
    ensures { let a = tree.while place (cond_of cond.now) (stmt_of body.now) in
        Answers result (stmt_faults known.old a) known.new (after known.old a) }
{
    let own = while_fault(known, place, cond);
    while_condition(known, place, cond)?;
    let in_loop = known.looping();
    statement(alloc, known, body)?;
    known.leave_loop(in_loop);
    stop_at(own)
}

// A `for`.
#[cycle(statement)]
#[tactic(auto, unfolding(crate::specs::Means::Statements::stmt_faults, crate::specs::Means::Statements::after))]
fn for_loop(
    alloc: Global,
    known: &mut Known,
    body: &Stmt,
    place: Place,
    first: &Option<First>,
    cond: &Option<Cond>,
    step: &Option<Effect>,
) -> Result<(), Stop>
    ensures { let a = tree.for place (option_map first_seen first.now) (option_map cond_of cond.now) (option_map effect_of step.now) (stmt_of body.now) in
        Answers result (stmt_faults known.old a) known.new (after known.old a) }
{
    let head = for_head(alloc, known, place, first, cond, step)?;
    statement(alloc, known, body)?;
    known.leave(head.outside);
    stop_at(head.own)
}

// A range-for.
#[cycle(statement)]
#[tactic(auto, unfolding(crate::specs::Means::Statements::stmt_faults, crate::specs::Means::Statements::after))]
fn range_loop(
    alloc: Global,
    known: &mut Known,
    body: &Stmt,
    place: Place,
    element: Element,
    name: &Identifier,
    over: &Identifier,
) -> Result<(), Stop>
    ensures { let a = tree.range_for place element name.now over.now (stmt_of body.now) in
        Answers result (stmt_faults known.old a) known.new (after known.old a) }
{
    let head = range_head(alloc, known, place, element, name, over)?;
    statement(alloc, known, body)?;
    known.leave(head.outside);
    stop_at(head.own)
}

// A block.
#[cycle(statement)]
#[tactic(auto, unfolding(crate::specs::Means::Statements::stmt_faults, crate::specs::Means::Statements::after))]
fn block(alloc: Global, known: &mut Known, x: &Block) -> Result<(), Stop>
    ensures { let a = tree.block x.now.place (items_of x.now.items.items) x.now.close in
        Answers result (stmt_faults known.old a) known.new (after known.old a) }
{
    let outside = known.enter(alloc)?;
    items(alloc, known, &x.items)?;
    brace(known, &x.items, x.close)?;
    known.leave(outside);
    Ok(())
}

/// The items of a block.
#[cycle(statement)]
pub fn items(alloc: Global, known: &mut Known, xs: &[Item]) -> Result<(), Stop>
    ensures { Answers result (items_faults known.old (items_of xs.now)) known.new (after_items known.old (items_of xs.now)) }
{
    for x in xs {
        item(alloc, known, x)?;
    }
    Ok(())
}

// An item of a block.
#[cycle(statement)]
#[tactic(auto, unfolding(crate::specs::Means::Statements::item_faults, crate::specs::Means::Statements::after_item))]
fn item(alloc: Global, known: &mut Known, x: &Item) -> Result<(), Stop>
    ensures { Answers result (item_faults known.old (item_of x.now)) known.new (after_item known.old (item_of x.now)) }
{
    match x {
        Item::Declaration(x) => declared_item(known, x),
        Item::Statement(x) => statement(alloc, known, x),
    }
}
