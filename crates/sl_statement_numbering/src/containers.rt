//! Containers that declarations make.
ghost use Rattle.std.specs.Prelude.{◌≡◌, [], ◌∷◌, Bool, IfOk, OnOk, None, option_map};
ghost use Rattle.sl_candidates.specs.Found.{found_of};
ghost use Rattle.sl_syntax.specs.Tree as tree;
ghost use Rattle.sl_syntax.specs.TreeView.{exprs_of, initializer_of};
ghost use Rattle.sl_syntax.specs.TypedView as view;
ghost use Rattle.sl_typing.specs.Candidates as candidates;
ghost use Rattle.sl_typing.specs.Contexts.{Context};
ghost use Rattle.sl_typing.specs.Flow as flow;
ghost use Rattle.sl_typing.specs.Numbering as numbers;
ghost use Rattle.sl_typing.specs.StatementFaults as faults;
ghost use Rattle.sl_typing.specs.StatementNumbering as spec;
ghost use Rattle.sl_typing.specs.TypeOf as types;
ghost use Rattle.sl_number_limits.specs.Fits.{Fits};

use sl_base::{Form, Items};
use sl_candidates::{FoundRow, constructor_row, list_constructor};
use sl_contexts::Known;
use sl_expr_sites::pass_all;
use sl_expr_types::{slice_of, types_of};
use sl_numbering::{Ways, head, name_number, one, operands, told_behind, variable_number};
use sl_scopes::names::type_of_name;
use sl_specs::Letter;
use sl_syntax::typed::{Callee, Declaration, Expr as TypedExpr};
use sl_syntax::{ContainerType, Expr, Identifier, Initializer};
use sl_typing::Scope;
use std::alloc::{AllocError, Global};

// The constructor of a form from a list in braces, if there is one; from braces without elements, that of an empty container.
fn braces_row(form: Form, elements: &[Expr]) -> Option<FoundRow>
    ensures { (g : Context) (equal : Bool) → option_map found_of result ≡ spec.making_row g form (tree.braces equal (exprs_of elements.now)) }
{
    if elements.is_empty() {
        constructor_row(form, &[])
    } else {
        list_constructor(form)
    }
}

// The constructor of a form from arguments, if there is one.
fn arguments_row(scope: &Scope, form: Form, xs: &[Expr]) -> Option<FoundRow>
    ensures { option_map found_of result ≡ candidates.constructor_row form (types.types_of scope.now (exprs_of xs.now)) }
{
    constructor_row(form, slice_of(&types_of(scope, xs)))
}

// The constructor that makes a container, if there is one.
fn making_row(known: &Known, form: Form, initializer: &Initializer) -> Option<FoundRow>
    ensures { option_map found_of result ≡ spec.making_row known.now form (initializer_of initializer.now) }
{
    match initializer {
        Initializer::Absent => constructor_row(form, &[]),
        Initializer::Copy(other) => {
            let copied = type_of_name(known.scope(), other.name.as_slice());
            constructor_row(form, &[copied])
        }
        Initializer::Braces { elements, .. } => braces_row(form, elements.as_slice()),
        Initializer::Arguments(xs) => arguments_row(known.scope(), form, xs.as_slice()),
    }
}

// The number of a row; 0 where there is none.
fn number_of_row(row: Option<FoundRow>) -> u16
    ensures { result ≡ spec.number_of_row (option_map found_of row) }
{
    match row {
        None => 0,
        Some(found) => found.number,
    }
}

// The letters of a row; none where there is no row.
fn letters_of(row: Option<FoundRow>) -> &'static [Letter]
    ensures { result.now ≡ numbers.letters_of (option_map found_of row) }
{
    match row {
        None => &[],
        Some(found) => found.entry.signature.letters,
    }
}

// No name, and that of a container that is copied.
fn told_copy(
    alloc: Global,
    known: &Known,
    other: &Identifier,
) -> Result<Items<Option<u16>>, AllocError>
    requires { Fits known.now }
    ensures { IfOk result (λ names. names ≡ None ∷ spec.told_in known.now (tree.copies other.now)) }
{
    let mut names = Items::new(alloc);
    names.push(None)?;
    names.push(name_number(known.scope(), other.name.as_slice()))?;
    Ok(names)
}

// No name, and those among what a container is made from.
fn told_in(
    alloc: Global,
    known: &Known,
    initializer: &Initializer,
) -> Result<Items<Option<u16>>, AllocError>
    requires { Fits known.now }
    ensures { IfOk result (λ names. names ≡ None ∷ spec.told_in known.now (initializer_of initializer.now)) }
{
    match initializer {
        Initializer::Absent => told_behind(alloc, None, known.scope(), &[]),
        Initializer::Copy(other) => told_copy(alloc, known, other),
        Initializer::Braces { elements, .. } => {
            told_behind(alloc, None, known.scope(), elements.as_slice())
        }
        Initializer::Arguments(xs) => told_behind(alloc, None, known.scope(), xs.as_slice()),
    }
}

// What a container is made from, as operands of this row.
fn operands_in(
    alloc: Global,
    known: &Known,
    row: Option<FoundRow>,
    initializer: &Initializer,
) -> Result<Vec<TypedExpr>, AllocError>
    requires fits { Fits known.now }
    requires kept { faults.initializer_faults known.now (initializer_of initializer.now) ≡ [] }
    ensures { IfOk result (λ v. view.operands_of v.items ≡ spec.operands_in known.now (option_map found_of row) (initializer_of initializer.now)) }
{
    match initializer {
        Initializer::Absent => Ok(Vec::new(alloc)),
        Initializer::Copy(other) => {
            let number = variable_number(known.scope(), other.name.as_slice());
            one(alloc, TypedExpr::Container(number))
        }
        Initializer::Braces { elements, .. } => {
            let xs = elements.as_slice();
            operands(
                alloc,
                known.scope(),
                known.sites(),
                Ways::Elements(xs.len()),
                xs,
            )
        }
        Initializer::Arguments(xs) => {
            let ways = Ways::Letters(letters_of(row));
            operands(alloc, known.scope(), known.sites(), ways, xs.as_slice())
        }
    }
}

// Counts the sites of what a container is made from.
fn pass_initializer(known: &mut Known, initializer: &Initializer) -> Result<(), AllocError>
    ensures { OnOk result (known.new ≡ flow.behind_initializer known.old (initializer_of initializer.now)) }
{
    match initializer {
        Initializer::Absent => Ok(()),
        Initializer::Copy(_) => Ok(()),
        Initializer::Braces { elements, .. } => pass_all(known, elements.as_slice()),
        Initializer::Arguments(xs) => pass_all(known, xs.as_slice()),
    }
}

/// The declaration of a container of this type; then is known what is known behind what it is made from.
pub fn made(
    alloc: Global,
    known: &mut Known,
    container: ContainerType,
    initializer: &Initializer,
) -> Result<Declaration, AllocError>
    requires fits { Fits known.old }
    requires kept { faults.initializer_faults known.old (initializer_of initializer.now) ≡ [] }
    ensures typed { (x : Identifier) → IfOk result (λ d. view.declaration_of d
        ≡ spec.typed_declaration known.old (tree.declares_container container x (initializer_of initializer.now))) }
    ensures behind { OnOk result (known.new ≡ flow.behind_initializer known.old (initializer_of initializer.now)) }
{
    let row = making_row(known, container.form, initializer);
    let callee = Callee::Row(number_of_row(row));
    let names = told_in(alloc, known, initializer)?;
    let head = head(alloc, callee, container.place, None, None, names.as_slice())?;
    let operands = operands_in(alloc, known, row, initializer)?;
    pass_initializer(known, initializer)?;
    Ok(Declaration::MakeContainer {
        form: container.form,
        head,
        operands,
    })
}
