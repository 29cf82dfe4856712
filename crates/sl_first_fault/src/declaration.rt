//! Declarations.
ghost use Rattle.std.specs.Prelude.{◌≡◌, ◌++◌, not, ◌||◌, option_map, option_copied};
ghost use Rattle.sl_syntax.specs.TreeView.{expr_of, initializer_of, declaration_of, first_of as first_seen};
ghost use Rattle.sl_syntax.specs.Tree as tree;
ghost use Rattle.sl_typing.specs.declared.rules.TheConstants as rule;
ghost use Rattle.sl_typing.specs.Faults.{broken as fault};
ghost use Rattle.sl_typing.specs.Flow as flow;
ghost use Rattle.sl_typing.specs.Ranges as ranges;
ghost use Rattle.sl_typing.specs.StatementFaults as spec;
ghost use Rattle.sl_typing.specs.TypeOf.{type_of as type_seen};
ghost use Rattle.sl_typing.specs.Types as types;
ghost use Rattle.sl_typing.specs.Typing.{first_of};
ghost use Rattle.sl_first_fault.specs.Means.Steps.{Answers};

use crate::effect::effect;
use crate::expression::{expression, value};
use crate::initializer::{container_fault, initializer};
use crate::stop::Stop;
use crate::variables::declare_variable;
use sl_base::{Place, Scalar};
use sl_contexts::Known;
use sl_expr_types::type_of;
use sl_statement_types::{broken, head_frees_const, may_be_bound, reference_type, twice_fault};
use sl_syntax::{
    Access, ContainerType, Declaration, Expr, First, Identifier, Initializer, ReferenceHead,
};
use sl_typing::{ExprType, Fault, rules};

// Whether a value, where there is one, isn't a number.
fn is_wrong_value(known: &Known, value: Option<&Expr>) -> bool
    ensures { result ≡ spec.wrong_value known.now (option_map expr_of (option_copied value.entry)) }
{
    match value {
        None => false,
        Some(e) => !type_of(known.scope(), e).is_number(),
    }
}

// The first of its own rules that the declaration of a scalar breaks, but for the limit.
#[tactic(auto, using(crate::proofs::StepLaws::first_laws))]
fn scalar_fault(
    known: &Known,
    place: Place,
    name: &Identifier,
    value: Option<&Expr>,
) -> Option<Fault>
    ensures { result ≡ first_of
        (spec.twice_faults known.now name.now
        ++ fault (spec.wrong_value known.now (option_map expr_of (option_copied value.entry))) place rule.WRONG_TYPE) }
{
    twice_fault(known, name).or(broken(is_wrong_value(known, value), place, rules::WRONG_TYPE))
}

/// The declaration of a scalar.
fn scalar_declaration(
    known: &mut Known,
    place: Place,
    scalar: Scalar,
    name: &Identifier,
    from: Option<&Expr>,
) -> Result<(), Stop>
    ensures { let d = tree.declares_scalar place scalar name.now (option_map expr_of (option_copied from.entry)) in
        Answers result (spec.declaration_faults known.old d) known.new (flow.behind_declaration known.old d) }
{
    let own = scalar_fault(known, place, name, from);
    value(known, from)?;
    declare_variable(known, own, name, ExprType::Scalar(scalar))
}

// The type of a variable that is declared by `auto`.
fn auto_type(known: &Known, from: &Expr) -> ExprType
    ensures { result ≡ types.value_type (type_seen known.now.scope (expr_of from.now)) }
{
    type_of(known.scope(), from).value()
}

// The first of its own rules that the declaration of a variable by `auto` breaks, but for the limit.
#[tactic(auto, using(crate::proofs::StepLaws::first_laws))]
fn auto_fault(known: &Known, name: &Identifier, from: &Expr) -> Option<Fault>
    ensures { let declared = type_seen known.now.scope (expr_of from.now) in result ≡ first_of
        (spec.twice_faults known.now name.now
        ++ fault (not (types.is_number declared || types.is_iterator declared)) name.now.place rule.AUTO) }
{
    let declared = type_of(known.scope(), from);
    let is_wrong = !(declared.is_number() | declared.is_iterator());
    twice_fault(known, name).or(broken(is_wrong, name.place, rules::AUTO))
}

/// The declaration of a variable by `auto`.
fn auto_declaration(
    known: &mut Known,
    place: Place,
    name: &Identifier,
    from: &Expr,
) -> Result<(), Stop>
    ensures { let d = tree.declares_auto place name.now (expr_of from.now) in
        Answers result (spec.declaration_faults known.old d) known.new (flow.behind_declaration known.old d) }
{
    let declared = auto_type(known, from);
    let own = auto_fault(known, name, from);
    expression(known, from)?;
    declare_variable(known, own, name, declared)
}

// The type of a reference.
fn bound_type(known: &Known, head: ReferenceHead, from: &Expr) -> ExprType
    ensures { result ≡ ranges.reference_type head (type_seen known.now.scope (expr_of from.now)) }
{
    reference_type(head, type_of(known.scope(), from))
}

// The first of its own rules that the declaration of a reference breaks, but for the limit.
#[tactic(auto, using(crate::proofs::StepLaws::first_laws))]
fn reference_fault(
    known: &Known,
    head: ReferenceHead,
    name: &Identifier,
    from: &Expr,
) -> Option<Fault>
    ensures { result ≡ first_of
        (spec.twice_faults known.now name.now
        ++ fault (not (ranges.may_be_bound known.now.scope (expr_of from.now))) head.place rule.WRONG_TYPE
        ++ fault (ranges.head_frees_const head (types.is_written (type_seen known.now.scope (expr_of from.now)))) head.place rule.WRITE_TO_CONST) }
{
    let scope = known.scope();
    let frees = head_frees_const(head, type_of(scope, from).is_written());
    twice_fault(known, name)
        .or(broken(!may_be_bound(scope, from), head.place, rules::WRONG_TYPE))
        .or(broken(frees, head.place, rules::WRITE_TO_CONST))
}

/// The declaration of a reference.
fn reference_declaration(
    known: &mut Known,
    head: ReferenceHead,
    name: &Identifier,
    from: &Expr,
) -> Result<(), Stop>
    ensures { let d = tree.declares_reference head name.now (expr_of from.now) in
        Answers result (spec.declaration_faults known.old d) known.new (flow.behind_declaration known.old d) }
{
    let declared = bound_type(known, head, from);
    let own = reference_fault(known, head, name, from);
    expression(known, from)?;
    declare_variable(known, own, name, declared)
}

// The first of its own rules that the declaration of a container breaks, but for the limit.
#[tactic(auto, using(crate::proofs::StepLaws::first_laws))]
fn own_container_fault(
    known: &Known,
    container: ContainerType,
    name: &Identifier,
    from: &Initializer,
) -> Option<Fault>
    ensures { result ≡ first_of
        (spec.twice_faults known.now name.now
        ++ (fault (spec.has_no_constructor container.form (initializer_of from.now)) container.place rule.NO_SUCH_CALL
        ++ fault (spec.wrong_initializer known.now container.form (initializer_of from.now)) container.place rule.WRONG_TYPE
        ++ fault (spec.is_disordered known.now (initializer_of from.now)) container.place rule.ORDER_OF_EFFECTS)) }
{
    twice_fault(known, name).or(container_fault(known, container, from))
}

/// The declaration of a container.
fn container_declaration(
    known: &mut Known,
    container: ContainerType,
    name: &Identifier,
    from: &Initializer,
) -> Result<(), Stop>
    ensures { let d = tree.declares_container container name.now (initializer_of from.now) in
        Answers result (spec.declaration_faults known.old d) known.new (flow.behind_declaration known.old d) }
{
    let own = own_container_fault(known, container, name, from);
    initializer(known, from)?;
    declare_variable(
        known,
        own,
        name,
        ExprType::Container(Access::Whole, container.form),
    )
}

/// A declaration.
pub fn declaration(known: &mut Known, x: &Declaration) -> Result<(), Stop>
    ensures { Answers result
        (spec.declaration_faults known.old (declaration_of x.now))
        known.new (flow.behind_declaration known.old (declaration_of x.now)) }
{
    match x {
        Declaration::Scalar {
            place,
            scalar,
            name,
            value,
        } => scalar_declaration(known, *place, *scalar, name, value.as_ref()),
        Declaration::Auto { place, name, value } => auto_declaration(known, *place, name, value),
        Declaration::Reference { head, name, value } => reference_declaration(
            known, *head, name, value,
        ),
        Declaration::Container {
            container,
            name,
            initializer,
        } => container_declaration(known, *container, name, initializer),
    }
}

/// The place of a declaration's first token.
pub fn declaration_place(x: &Declaration) -> Place
    ensures { result ≡ spec.declaration_place (declaration_of x.now) }
{
    match x {
        Declaration::Scalar { place, .. } => *place,
        Declaration::Auto { place, .. } => *place,
        Declaration::Reference { head, .. } => head.place,
        Declaration::Container { container, .. } => container.place,
    }
}

// The first part of a `for`.
fn first_part(known: &mut Known, x: &First) -> Result<(), Stop>
    ensures { Answers result
        (spec.first_faults known.old (Some (first_seen x.now)))
        known.new (flow.behind_first known.old (Some (first_seen x.now))) }
{
    match x {
        First::Scalar {
            place,
            scalar,
            name,
            value,
        } => scalar_declaration(known, *place, *scalar, name, Some(value)),
        First::Auto { place, name, value } => auto_declaration(known, *place, name, value),
        First::Effect(x) => effect(known, x),
    }
}

/// The first part of a `for`, which may be missing.
pub fn first(known: &mut Known, x: &Option<First>) -> Result<(), Stop>
    ensures { Answers result
        (spec.first_faults known.old (option_map first_seen x.now))
        known.new (flow.behind_first known.old (option_map first_seen x.now)) }
{
    match x {
        None => Ok(()),
        Some(x) => first_part(known, x),
    }
}
