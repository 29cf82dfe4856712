//! Statements, and the items of blocks.
ghost use Rattle.std.specs.Prelude.{◌≡◌, [], IfOk, OnOk, option_map};
ghost use Rattle.sl_syntax.specs.Tree as tree;
ghost use Rattle.sl_syntax.specs.TreeView.{cond_of, effect_of, first_of, item_of, items_of, stmt_of};
ghost use Rattle.sl_syntax.specs.Typed as t;
ghost use Rattle.sl_syntax.specs.TypedView as view;
ghost use Rattle.sl_typing.specs.Contexts as contexts;
ghost use Rattle.sl_typing.specs.Flow as flow;
ghost use Rattle.sl_typing.specs.Sites as sites;
ghost use Rattle.sl_typing.specs.StatementFaults as faults;
ghost use Rattle.sl_typing.specs.StatementNumbering as spec;
ghost use Rattle.sl_number_limits.specs.Fits.{Fits};

use crate::heads::{for_head, range_head, taken_as, while_head};
use crate::lines::{declared, done, given_back};
use sl_base::Place;
use sl_contexts::Known;
use sl_statement_numbering::{closing_brace, condition};
use sl_syntax::typed::{Block, Cond as TypedCond, Stmt as TypedStmt};
use sl_syntax::{Cond, Effect, Element, First, Identifier, Item, Stmt};
use std::alloc::{AllocError, Global};

// An `if` of its parts.
#[tactic(auto, using(sl_syntax::proofs::TypedViews::stmt_views))]
fn choice(alloc: Global, cond: TypedCond, then: TypedStmt) -> Result<TypedStmt, AllocError>
    ensures { IfOk result (λ a. view.stmt_of a ≡ t.choice (view.cond_of cond) (view.stmt_of then)) }
{
    let then = Box::new(alloc, then)?;
    Ok(TypedStmt::If {
        cond,
        then,
        otherwise: None,
    })
}

// An `if` with an `else`, of its parts.
#[tactic(auto, using(sl_syntax::proofs::TypedViews::stmt_views))]
fn choice_else(
    alloc: Global,
    cond: TypedCond,
    then: TypedStmt,
    otherwise: TypedStmt,
) -> Result<TypedStmt, AllocError>
    ensures { IfOk result (λ a. view.stmt_of a ≡ t.choice_else (view.cond_of cond) (view.stmt_of then) (view.stmt_of otherwise)) }
{
    let then = Box::new(alloc, then)?;
    let otherwise = Box::new(alloc, otherwise)?;
    Ok(TypedStmt::If {
        cond,
        then,
        otherwise: Some(otherwise),
    })
}

// The condition of an `if`, which begins.
fn choice_condition(alloc: Global, known: &mut Known, cond: &Cond) -> Result<TypedCond, AllocError>
    requires fits { Fits (contexts.started known.old) }
    requires kept { faults.cond_faults (contexts.started known.old) (cond_of cond.now) ≡ [] }
    ensures typed { IfOk result (λ x. view.cond_of x ≡ spec.typed_cond (contexts.started known.old) (cond_of cond.now)) }
    ensures behind { OnOk result (known.new ≡ flow.behind_cond (contexts.started known.old) (cond_of cond.now)) }
{
    known.started()?;
    condition(alloc, known, cond)
}

// A statement; then is known what is known behind it.
#[cycle(statement)]
#[tactic(auto, using(sl_syntax::proofs::TreeViews::stmt_views), unfolding(crate::specs::Means::Statements::typed_stmt, crate::specs::Means::Statements::after))]
fn statement(alloc: Global, known: &mut Known, x: &Stmt) -> Result<TypedStmt, AllocError>
    requires fits { Fits known.old }
    requires kept { faults.stmt_faults known.old (stmt_of x.now) ≡ [] }
    ensures typed { IfOk result (λ a. view.stmt_of a ≡ spec.typed_stmt known.old (stmt_of x.now)) }
    ensures behind { OnOk result (known.new ≡ flow.after known.old (stmt_of x.now)) }
{
    match x {
        Stmt::Block(x) => inner_block(alloc, known, &x.items, x.place, x.close),
        Stmt::If {
            cond,
            then,
            otherwise,
            ..
        } => {
            let cond = choice_condition(alloc, known, cond)?;
            let then = statement(alloc, known, then)?;
            match otherwise {
                None => choice(alloc, cond, then),
                Some(otherwise) => {
                    let otherwise = statement(alloc, known, otherwise)?;
                    choice_else(alloc, cond, then, otherwise)
                }
            }
        }
        Stmt::While { place, cond, body } => while_loop(alloc, known, body, *place, cond),
        Stmt::For {
            place,
            first,
            cond,
            step,
            body,
        } => for_loop(alloc, known, body, *place, first, cond, step),
        Stmt::RangeFor {
            place,
            element,
            name,
            container,
            body,
        } => range_loop(alloc, known, body, *place, *element, name, container),
        Stmt::Break { .. } => {
            known.started()?;
            Ok(TypedStmt::Break)
        }
        Stmt::Continue { .. } => {
            known.started()?;
            Ok(TypedStmt::Continue)
        }
        Stmt::Return { place, value } => given_back(alloc, known, *place, value),
        Stmt::Effect { place, effect } => done(alloc, known, *place, effect),
    }
}

// A `while`; then is known what is known behind it.
#[cycle(statement)]
#[tactic(auto, using(sl_syntax::proofs::TypedViews::stmt_views), unfolding(crate::specs::Means::Statements::typed_stmt, crate::specs::Means::Statements::after))]
fn while_loop(
    alloc: Global,
    known: &mut Known,
    body: &Stmt,
    place: Place,
    cond: &Cond,
) -> Result<TypedStmt, AllocError>
    requires fits { Fits known.old }
    requires kept { faults.stmt_faults known.old (tree.while place (cond_of cond.now) (stmt_of body.now)) ≡ [] }
    ensures typed { IfOk result (λ a. view.stmt_of a ≡ spec.typed_stmt known.old (tree.while place (cond_of cond.now) (stmt_of body.now))) }
    ensures behind { OnOk result (known.new ≡ flow.after known.old (tree.while place (cond_of cond.now) (stmt_of body.now))) }
{
    let head = while_head(alloc, known, place, cond)?;
    let body = statement(alloc, known, body)?;
    known.leave_loop(head.in_loop);
    let body = Box::new(alloc, body)?;
    Ok(TypedStmt::While {
        number: head.number,
        cond: head.cond,
        body,
    })
}

// A `for`; then is known what is known behind it.
#[cycle(statement)]
#[tactic(auto, using(sl_syntax::proofs::TypedViews::stmt_views), unfolding(crate::specs::Means::Statements::typed_stmt, crate::specs::Means::Statements::after))]
fn for_loop(
    alloc: Global,
    known: &mut Known,
    body: &Stmt,
    place: Place,
    first: &Option<First>,
    cond: &Option<Cond>,
    step: &Option<Effect>,
) -> Result<TypedStmt, AllocError>
    requires fits { Fits known.old }
    requires kept { faults.stmt_faults known.old (tree.for place (option_map first_of first.now) (option_map cond_of cond.now)
        (option_map effect_of step.now) (stmt_of body.now)) ≡ [] }
    ensures typed { let a = tree.for place (option_map first_of first.now) (option_map cond_of cond.now) (option_map effect_of step.now) (stmt_of body.now) in
        IfOk result (λ x. view.stmt_of x ≡ spec.typed_stmt known.old a) }
    ensures behind { let a = tree.for place (option_map first_of first.now) (option_map cond_of cond.now) (option_map effect_of step.now) (stmt_of body.now) in
        OnOk result (known.new ≡ flow.after known.old a) }
{
    let head = for_head(alloc, known, place, first, cond, step)?;
    let body = statement(alloc, known, body)?;
    known.leave(head.outside);
    let body = Box::new(alloc, body)?;
    Ok(TypedStmt::For {
        number: head.number,
        first: head.first,
        cond: head.cond,
        step: head.step,
        body,
    })
}

// A range-for; then is known what is known behind it.
#[cycle(statement)]
#[tactic(auto, using(sl_syntax::proofs::TypedViews::stmt_views), unfolding(crate::specs::Means::Statements::typed_stmt, crate::specs::Means::Statements::after))]
fn range_loop(
    alloc: Global,
    known: &mut Known,
    body: &Stmt,
    place: Place,
    element: Element,
    name: &Identifier,
    over: &Identifier,
) -> Result<TypedStmt, AllocError>
    requires fits { Fits known.old }
    requires kept { faults.stmt_faults known.old (tree.range_for place element name.now over.now (stmt_of body.now)) ≡ [] }
    ensures typed { IfOk result (λ a. view.stmt_of a ≡ spec.typed_stmt known.old (tree.range_for place element name.now over.now (stmt_of body.now))) }
    ensures behind { OnOk result (known.new ≡ flow.after known.old (tree.range_for place element name.now over.now (stmt_of body.now))) }
{
    let head = range_head(alloc, known, place, element, name, over)?;
    let body = statement(alloc, known, body)?;
    known.leave(head.outside);
    let body = Box::new(alloc, body)?;
    Ok(TypedStmt::RangeFor {
        number: head.number,
        taken: taken_as(element),
        container: head.container,
        place,
        name: head.name,
        body,
    })
}

// A block among statements; then is known what is known behind it.
#[cycle(statement)]
#[tactic(auto, using(sl_syntax::proofs::TypedViews::stmt_views), unfolding(crate::specs::Means::Statements::typed_stmt, crate::specs::Means::Statements::after))]
fn inner_block(
    alloc: Global,
    known: &mut Known,
    xs: &[Item],
    place: Place,
    close: Place,
) -> Result<TypedStmt, AllocError>
    requires fits { Fits known.old }
    requires kept { faults.stmt_faults known.old (tree.block place (items_of xs.now) close) ≡ [] }
    ensures typed { IfOk result (λ a. view.stmt_of a ≡ spec.typed_stmt known.old (tree.block place (items_of xs.now) close)) }
    ensures behind { OnOk result (known.new ≡ flow.after known.old (tree.block place (items_of xs.now) close)) }
{
    let outside = known.enter(alloc)?;
    let stmts = items(alloc, known, xs)?;
    let site = closing_brace(known, xs, close)?;
    known.leave(outside);
    Ok(TypedStmt::Block(Block { site, stmts }))
}

// The items of a block; then is known what is known behind them.
#[cycle(statement)]
fn items(alloc: Global, known: &mut Known, xs: &[Item]) -> Result<Vec<TypedStmt>, AllocError>
    requires fits { Fits known.old }
    requires kept { faults.items_faults known.old (items_of xs.now) ≡ [] }
    ensures typed { IfOk result (λ v. view.stmts_of v.items ≡ spec.typed_items known.old (items_of xs.now)) }
    ensures behind { OnOk result (known.new ≡ flow.after_items known.old (items_of xs.now)) }
{
    let mut typed = Vec::new(alloc);
    for x in xs {
        let item = item(alloc, known, x)?;
        typed.push(item)?;
    }
    Ok(typed)
}

// An item of a block; then is known what is known behind it.
#[cycle(statement)]
#[tactic(auto, unfolding(crate::specs::Means::Statements::typed_item, crate::specs::Means::Statements::after_item, crate::specs::Means::Statements::item_faults))]
fn item(alloc: Global, known: &mut Known, x: &Item) -> Result<TypedStmt, AllocError>
    requires fits { Fits known.old }
    requires kept { faults.item_faults known.old (item_of x.now) ≡ [] }
    ensures typed { IfOk result (λ a. view.stmt_of a ≡ spec.typed_item known.old (item_of x.now)) }
    ensures behind { OnOk result (known.new ≡ flow.after_item known.old (item_of x.now)) }
{
    match x {
        Item::Declaration(d) => declared(alloc, known, d),
        Item::Statement(a) => statement(alloc, known, a),
    }
}

/// The items of a block and its closing brace, typed; then is known what is known behind the brace. It fails for want of memory alone.
pub fn block(
    alloc: Global,
    known: &mut Known,
    xs: &[Item],
    close: Place,
) -> Result<Block, AllocError>
    requires fits { Fits known.old }
    requires kept { faults.items_faults known.old (items_of xs.now) ≡ [] }
    requires closes { faults.site_faults (flow.after_items known.old (items_of xs.now)) (sites.declares_container (items_of xs.now)) close ≡ [] }
    ensures site { IfOk result (λ b. b.site ≡ spec.brace_number known.old (items_of xs.now)) }
    ensures typed { IfOk result (λ b. view.stmts_of b.stmts.items ≡ spec.typed_items known.old (items_of xs.now)) }
    ensures behind { OnOk result (known.new
        ≡ contexts.with_sites (sites.brace_site (items_of xs.now) close) (flow.after_items known.old (items_of xs.now))) }
{
    let stmts = items(alloc, known, xs)?;
    let site = closing_brace(known, xs, close)?;
    Ok(Block { site, stmts })
}
