//! The sorts of variables, how many of each are in scope, and how many there may be.
ghost use Rattle.std.specs.Prelude.{◌≡◌, ℕ, List, Option};
ghost use Rattle.sl_typing.specs.Scopes as spec;
ghost use Rattle.sl_scopes.specs.SortView.{sort_seen};

use sl_base::limits::{CONTAINERS, ITERATORS, SCALARS};
use sl_typing::{ExprType, Scope};

/// A sort of variables; the variables of a sort are numbered by themselves.
#[derive(Clone, Copy)]
pub enum Sort {
    Scalars,
    Containers,
    /// Iterators, and references to elements.
    Iterators,
}

/// The sort of a variable of this type.
pub fn sort_of(variable_type: ExprType) -> Sort
    ensures { sort_seen result ≡ spec.sort_of variable_type }
{
    match variable_type {
        ExprType::Container(_, _) => Sort::Containers,
        ExprType::Iterator(_, _) => Sort::Iterators,
        ExprType::IntReference(_) => Sort::Iterators,
        ExprType::EntryReference(_) => Sort::Iterators,
        _ => Sort::Scalars,
    }
}

// Whether two sorts are one.
fn same_sort(x: Sort, y: Sort) -> bool
    ensures { result ≡ spec.same_sort (sort_seen x) (sort_seen y) }
{
    matches!(
        (x, y),
        (Sort::Scalars, Sort::Scalars)
            | (Sort::Containers, Sort::Containers)
            | (Sort::Iterators, Sort::Iterators)
    )
}

// Whether a variable of this type is of the sort.
fn is_of_sort(sort: Sort, variable_type: ExprType) -> bool
    ensures { result ≡ spec.same_sort (sort_seen sort) (spec.sort_of variable_type) }
{
    same_sort(sort, sort_of(variable_type))
}

/// How many variables of the sort are in scope. It takes no memory.
pub fn count_of(sort: Sort, scope: &Scope) -> usize
    ensures { result ≡ spec.count_of (sort_seen sort) scope.now }
{
    scope
        .variables
        .as_slice()
        .iter()
        .filter(
            |variable| -> bool
                ensures { result ≡ spec.same_sort (sort_seen sort) (spec.sort_of variable.now.now.variable_type) }
            { is_of_sort(sort, variable.variable_type) },
        )
        .count()
}

/// How many variables of the sort may be in scope.
pub fn limit_of(sort: Sort) -> usize
    ensures { result ≡ spec.limit_of (sort_seen sort) }
{
    match sort {
        Sort::Scalars => SCALARS,
        Sort::Containers => CONTAINERS,
        Sort::Iterators => ITERATORS,
    }
}

/// Whether one more variable of this type passes a limit, whatever its name. It takes no memory.
pub fn one_passes_limit(scope: &Scope, variable_type: ExprType) -> bool
    ensures { (name : Option (List ℕ)) (label : ℕ) →
        result ≡ spec.passes_some_limit scope.now (spec.with_variable name label variable_type scope.now) }
{
    let sort = sort_of(variable_type);
    count_of(sort, scope) == limit_of(sort)
}

/// Whether two more variables of this type pass a limit, whatever their names. It takes no memory.
pub fn two_pass_limit(scope: &Scope, variable_type: ExprType) -> bool
    ensures { (name : Option (List ℕ)) (label : ℕ) →
        result ≡ spec.passes_some_limit scope.now
        (spec.with_variable name label variable_type (spec.with_variable name label variable_type scope.now)) }
{
    let sort = sort_of(variable_type);
    let count = count_of(sort, scope);
    let limit = limit_of(sort);
    (count <= limit) & (limit.saturating_sub(count) < 2)
}
