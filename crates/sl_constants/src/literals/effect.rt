//! The literals of what is done for its effect, of what is tested, and of declarations.
ghost use Rattle.std.specs.Prelude.{◌≡◌, ◌++◌, map, flat_map, OnOk, option_map};
ghost use Rattle.sl_syntax.specs.TreeView.{expr_of, out_of, effect_of, cond_of, first_of, initializer_of, declaration_of};
ghost use Rattle.sl_typing.specs.Literals.{literals_of_value, literals_of_initializer, literals_of_declaration, literals_of_out};
ghost use Rattle.sl_typing.specs.Literals.{literals_of_effect, literals_of_cond, literals_of_first};
ghost use Rattle.sl_typing.specs.Literals.{literals_of_test, literals_of_last};

use crate::literals::expr::{push_all, push_expr};
use sl_base::Items;
use sl_syntax::{Cond, Declaration, Effect, Expr, First, Initializer, Out};
use std::alloc::AllocError;

/// Puts the literals of a value, where there is one, behind the others.
pub fn push_value(out: &mut Items<i64>, x: &Option<Expr>) -> Result<(), AllocError>
    ensures { OnOk result (out.new ≡ out.old ++ literals_of_value (option_map expr_of x.now)) }
{
    match x {
        Some(x) => push_expr(out, x),
        None => Ok(()),
    }
}

/// Puts those of what a container is made from behind the others.
fn push_initializer(out: &mut Items<i64>, x: &Initializer) -> Result<(), AllocError>
    ensures { OnOk result (out.new ≡ out.old ++ literals_of_initializer (initializer_of x.now)) }
{
    match x {
        Initializer::Absent => Ok(()),
        Initializer::Copy(_) => Ok(()),
        Initializer::Braces { elements, .. } => push_all(out, elements),
        Initializer::Arguments(arguments) => push_all(out, arguments),
    }
}

/// Puts those of a declaration behind the others.
pub fn push_declaration(out: &mut Items<i64>, x: &Declaration) -> Result<(), AllocError>
    ensures { OnOk result (out.new ≡ out.old ++ literals_of_declaration (declaration_of x.now)) }
{
    match x {
        Declaration::Scalar { value, .. } => push_value(out, value),
        Declaration::Auto { value, .. } => push_expr(out, value),
        Declaration::Reference { value, .. } => push_expr(out, value),
        Declaration::Container { initializer, .. } => push_initializer(out, initializer),
    }
}

/// Puts those of an item of a print behind the others.
fn push_out(out: &mut Items<i64>, x: &Out) -> Result<(), AllocError>
    ensures { OnOk result (out.new ≡ out.old ++ literals_of_out (out_of x.now)) }
{
    match x {
        Out::Text { .. } => Ok(()),
        Out::EndLine { .. } => Ok(()),
        Out::Value(x) => push_expr(out, x),
    }
}

/// Puts those of the items of a print behind the others.
fn push_outs(out: &mut Items<i64>, xs: &[Out]) -> Result<(), AllocError>
    ensures { OnOk result (out.new ≡ out.old ++ flat_map literals_of_out (map out_of xs.now)) }
{
    for x in xs {
        push_out(out, x)?;
    }
    Ok(())
}

/// Puts those of what is done for its effect behind the others.
pub fn push_effect(out: &mut Items<i64>, x: &Effect) -> Result<(), AllocError>
    ensures { OnOk result (out.new ≡ out.old ++ literals_of_effect (effect_of x.now)) }
{
    match x {
        Effect::Read(_) => Ok(()),
        Effect::Print(print) => push_outs(out, &print.items),
        Effect::Value(x) => push_expr(out, x),
        Effect::Assign { left, right, .. } => {
            push_expr(out, left)?;
            push_expr(out, right)
        }
    }
}

/// Puts those of what is tested behind the others.
pub fn push_cond(out: &mut Items<i64>, x: &Cond) -> Result<(), AllocError>
    ensures { OnOk result (out.new ≡ out.old ++ literals_of_cond (cond_of x.now)) }
{
    match x {
        Cond::Read(_) => Ok(()),
        Cond::NotRead { .. } => Ok(()),
        Cond::Value(x) => push_expr(out, x),
    }
}

/// Puts those of the first part of a `for` behind the others.
pub fn push_first(out: &mut Items<i64>, x: &Option<First>) -> Result<(), AllocError>
    ensures { OnOk result (out.new ≡ out.old ++ literals_of_first (option_map first_of x.now)) }
{
    match x {
        None => Ok(()),
        Some(First::Scalar { value, .. }) => push_expr(out, value),
        Some(First::Auto { value, .. }) => push_expr(out, value),
        Some(First::Effect(effect)) => push_effect(out, effect),
    }
}

/// Puts those of its condition behind the others.
pub fn push_test(out: &mut Items<i64>, x: &Option<Cond>) -> Result<(), AllocError>
    ensures { OnOk result (out.new ≡ out.old ++ literals_of_test (option_map cond_of x.now)) }
{
    match x {
        Some(x) => push_cond(out, x),
        None => Ok(()),
    }
}

/// Puts those of its last part behind the others.
pub fn push_last(out: &mut Items<i64>, x: &Option<Effect>) -> Result<(), AllocError>
    ensures { OnOk result (out.new ≡ out.old ++ literals_of_last (option_map effect_of x.now)) }
{
    match x {
        Some(x) => push_effect(out, x),
        None => Ok(()),
    }
}
