//! Calls of the library.
ghost use Rattle.std.specs.Prelude.{◌≡◌, IfOk, option_map, if◌then◌else◌};
ghost use Rattle.sl_syntax.specs.Typed as t;
ghost use Rattle.sl_syntax.specs.TypedView as view;
ghost use Rattle.sl_typing.specs.Numbering as spec;
ghost use Rattle.sl_numbering.specs.Means.Algorithms as means;
ghost use Rattle.sl_candidates.specs.Found.{found_of};

use crate::conversion::handed;
use crate::heads::{head, one};
use crate::operand::Operand;
use crate::rows::letters_of;
use crate::variables::{no_expr, number_in};
use crate::ways::Ways;
use sl_base::{Place, Site};
use sl_candidates::FoundRow;
use sl_expr_types::row_of_subscript;
use sl_specs::ReturnType;
use sl_syntax::Identifier;
use sl_syntax::typed::{Callee, Expr, Fix, Head, Left};
use std::alloc::{AllocError, Global};

/// A call that gives an element. It takes no memory.
pub fn element(head: Head, operands: Vec<Expr>) -> Expr
    ensures { view.expr_of result ≡ t.held (t.element head (view.operands_of operands.items)) }
{
    Expr::Held(Left::Element { head, operands })
}

/// A call that gives no element. It takes no memory.
pub fn call(head: Head, operands: Vec<Expr>) -> Expr
    ensures { view.expr_of result ≡ t.call head (view.operands_of operands.items) }
{
    Expr::Call { head, operands }
}

/// A call that moves an iterator variable, with the operands behind it. It takes no memory.
pub fn move_call(fix: Fix, iterator: u8, head: Head, operands: Vec<Expr>) -> Expr
    ensures { view.expr_of result ≡ t.move fix iterator head (view.operands_of operands.items) }
{
    Expr::Move {
        fix,
        iterator,
        head,
        operands,
    }
}

/// A call of a row, by what it gives: an element of its object, or a value. It takes no memory.
pub fn row_call(gives: ReturnType, head: Head, operands: Vec<Expr>) -> Expr
    ensures { view.expr_of result ≡ spec.row_call gives head (view.operands_of operands.items) }
{
    match gives {
        ReturnType::Element => element(head, operands),
        _ => call(head, operands),
    }
}

/// A call of a function of the program, by its number, at its name. It takes no memory.
pub fn own_call(function: u16, place: Place, operands: Vec<Expr>) -> Expr
    ensures { view.expr_of result ≡ t.own_call function place (view.operands_of operands.items) }
{
    Expr::OwnCall {
        function,
        place,
        operands,
    }
}

/// A call of a row, if there is one, on an object, at a place, with its site and the names that it tells.
pub fn called_row(
    alloc: Global,
    row: Option<FoundRow>,
    place: Place,
    site: Option<Site>,
    object: u8,
    names: &[Option<u16>],
    operands: Vec<Expr>,
) -> Result<Expr, AllocError>
    ensures { IfOk result (λ e. view.expr_of e
        ≡ spec.called_row (option_map found_of row) place site object names.now (view.operands_of operands.items)) }
{
    match row {
        None => Ok(no_expr()),
        Some(found) => {
            let head = head(
                alloc,
                Callee::Row(found.number),
                place,
                site,
                Some(object),
                names,
            )?;
            Ok(row_call(found.entry.signature.gives, head, operands))
        }
    }
}

/// A call of the row of an algorithm, if there is one, which appends or doesn't, at its name, with its site and the
/// names that it tells: `advance` moves its variable, and `back_inserter` is its container.
pub fn called_algorithm(
    alloc: Global,
    row: Option<FoundRow>,
    appends: bool,
    function: &Identifier,
    site: Option<Site>,
    names: &[Option<u16>],
    operands: Vec<Expr>,
) -> Result<Expr, AllocError>
    ensures { IfOk result (λ e. view.expr_of e
        ≡ spec.called_algorithm (option_map found_of row) appends function.now.name function.now.place site names.now
        (view.operands_of operands.items)) }
{
    match row {
        None => Ok(no_expr()),
        Some(found) => numbered_algorithm(
            alloc,
            found.number,
            appends,
            function,
            site,
            names,
            operands,
        ),
    }
}

// A call of the row of an algorithm with this number.
fn numbered_algorithm(
    alloc: Global,
    number: u16,
    appends: bool,
    function: &Identifier,
    site: Option<Site>,
    names: &[Option<u16>],
    operands: Vec<Expr>,
) -> Result<Expr, AllocError>
    ensures { IfOk result (λ e. view.expr_of e
        ≡ means.numbered_algorithm number appends function.now.name function.now.place site names.now
        (view.operands_of operands.items)) }
{
    let name = function.name.as_slice();
    if name == "back_inserter".as_bytes() {
        Ok(appended(operands))
    } else if name == "advance".as_bytes() {
        advanced(alloc, number, function.place, site, names, operands)
    } else {
        plain_algorithm(
            alloc,
            algorithm(appends, number),
            function.place,
            site,
            names,
            operands,
        )
    }
}

// A call of an algorithm that gives what it gives.
fn plain_algorithm(
    alloc: Global,
    callee: Callee,
    place: Place,
    site: Option<Site>,
    names: &[Option<u16>],
    operands: Vec<Expr>,
) -> Result<Expr, AllocError>
    ensures { IfOk result (λ e. view.expr_of e
        ≡ t.call (spec.head callee place site None names.now) (view.operands_of operands.items)) }
{
    let head = head(alloc, callee, place, site, None, names)?;
    Ok(call(head, operands))
}

// The row of an algorithm, which appends or doesn't.
fn algorithm(appends: bool, number: u16) -> Callee
    ensures { result ≡ means.algorithm appends number }
{
    if appends {
        Callee::Appends(number)
    } else {
        Callee::Row(number)
    }
}

// The container of `back_inserter`.
fn appended(mut operands: Vec<Expr>) -> Expr
    ensures { view.expr_of result ≡ spec.first_operand (view.operands_of operands.items) }
{
    take_first(&mut operands)
}

// A move of a variable, which is the first operand, by what the others say.
fn advanced(
    alloc: Global,
    number: u16,
    place: Place,
    site: Option<Site>,
    names: &[Option<u16>],
    mut operands: Vec<Expr>,
) -> Result<Expr, AllocError>
    ensures { IfOk result (λ e. view.expr_of e
        ≡ means.advanced number place site names.now (view.operands_of operands.items)) }
{
    let variable = take_first(&mut operands);
    let head = head(alloc, Callee::Row(number), place, site, None, names)?;
    Ok(move_call(Fix::Prefix, number_in(&variable), head, operands))
}

// Takes the first operand out, if there is one.
fn take_first(operands: &mut Vec<Expr>) -> Expr
    ensures first { view.expr_of result ≡ spec.first_operand (view.operands_of operands.old.items) }
    ensures others { view.operands_of operands.new.items ≡ spec.other_operands (view.operands_of operands.old.items) }
{
    if operands.is_empty() {
        no_expr()
    } else {
        operands.remove(0)
    }
}

/// `[ ]` on a container, at its bracket, with its site and the names that it tells.
pub fn subscripted(
    alloc: Global,
    place: Place,
    site: Option<Site>,
    names: &[Option<u16>],
    container: Operand,
    index: Operand,
) -> Result<Expr, AllocError>
    ensures { IfOk result (λ e. let row = spec.row_of_subscript container.value_type in view.expr_of e
        ≡ spec.called_row row place site (spec.number_in (view.expr_of container.value)) names.now
        (spec.one (spec.handed (spec.first_way (spec.ways (spec.letters_of row))) index.value_type (view.expr_of index.value)))) }
{
    let row = row_of_subscript(container.value_type);
    let value = handed(alloc, Ways::Letters(letters_of(row)).first(), index)?;
    let operands = one(alloc, value)?;
    called_row(
        alloc,
        row,
        place,
        site,
        number_in(&container.value),
        names,
        operands,
    )
}
