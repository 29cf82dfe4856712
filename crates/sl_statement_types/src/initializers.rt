//! What containers are made from.
ghost use Rattle.std.specs.Prelude.{◌≡◌, Bool, is_none};
ghost use Rattle.std.specs.List.{list_all};
ghost use Rattle.sl_syntax.specs.Tree as tree;
ghost use Rattle.sl_syntax.specs.TreeView.{exprs_of, expr_of, initializer_of};
ghost use Rattle.sl_typing.specs.Arguments.{is_listed};
ghost use Rattle.sl_typing.specs.Candidates.{constructor_row as meant, list_constructor as listing};
ghost use Rattle.sl_typing.specs.StatementFaults as spec;
ghost use Rattle.sl_typing.specs.TypeOf.{type_of as type_seen, types_of as types_seen};

use sl_base::Form;
use sl_candidates::{constructor_row, has_constructor, list_constructor};
use sl_contexts::Known;
use sl_expr_types::{slice_of, type_of, types_of};
use sl_scopes::names::type_of_name;
use sl_syntax::{Expr, Initializer};
use sl_typing::Scope;

// Whether a form has no constructor from a list in braces, where that has elements.
fn takes_no_list(form: Form, elements: &[Expr]) -> bool
    ensures { (equal : Bool) → result ≡ spec.has_no_constructor form (tree.braces equal (exprs_of elements.now)) }
{
    !elements.is_empty() & list_constructor(form).is_none()
}

/// Whether the form has no such constructor. It takes no memory.
pub fn has_no_constructor(form: Form, initializer: &Initializer) -> bool
    ensures { result ≡ spec.has_no_constructor form (initializer_of initializer.now) }
{
    match initializer {
        Initializer::Absent => false,
        Initializer::Copy(_) => false,
        Initializer::Braces { elements, .. } => takes_no_list(form, elements.as_slice()),
        Initializer::Arguments(xs) => !has_constructor(form, xs.as_slice().len()),
    }
}

// Whether each of these is an int or a bool.
fn all_listed(scope: &Scope, elements: &[Expr]) -> bool
    ensures { result ≡ list_all (λ x. is_listed (type_seen scope.now (expr_of x))) elements.now }
{
    elements.iter().all(
        |x| -> bool
            ensures { result ≡ is_listed (type_seen scope.entry.now (expr_of x.now)) }
        { type_of(scope, x).is_listed() },
    )
}

// Whether no constructor of the form takes these.
fn constructs_none(scope: &Scope, form: Form, xs: &[Expr]) -> bool
    ensures { result ≡ is_none (meant form (types_seen scope.now (exprs_of xs.now))) }
{
    constructor_row(form, slice_of(&types_of(scope, xs))).is_none()
}

/// Whether a constructor of the form, if there is one, doesn't take these. It takes no memory.
pub fn wrong_initializer(known: &Known, form: Form, initializer: &Initializer) -> bool
    ensures { result ≡ spec.wrong_initializer known.now form (initializer_of initializer.now) }
{
    match initializer {
        Initializer::Absent => false,
        Initializer::Copy(other) => {
            !type_of_name(known.scope(), other.name.as_slice()).is_container_of(form)
        }
        Initializer::Braces { elements, .. } => !all_listed(known.scope(), elements.as_slice()),
        Initializer::Arguments(xs) => constructs_none(known.scope(), form, xs.as_slice()),
    }
}
