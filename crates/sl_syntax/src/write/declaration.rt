//! The words of declarations.
ghost use Rattle.std.specs.Prelude.{◌≡◌, ◌++◌, [], ◌∷◌, OnOk};
ghost use Rattle.sl_syntax.specs.TreeView.{expr_of, exprs_of, initializer_of, declaration_of};
ghost use Rattle.sl_syntax.specs.Written.{words_of, list_written, value_written, initializer_written};
ghost use Rattle.sl_syntax.specs.Written.{declaration_written, reference_written};

use crate::tree::{Declaration, Expr, Initializer, ReferenceHead};
use crate::write::expr::{write_expr, write_list};
use crate::write::word::{element_word, key, scalar_word, write_container, write_mark, write_name};
use sl_base::{Items, Mark, Word};
use std::alloc::AllocError;

/// Writes `= x`.
pub fn write_value(out: &mut Items<Word>, x: &Expr) -> Result<(), AllocError>
    ensures { OnOk result (out.new ≡ out.old ++ words_of (value_written (expr_of x.now))) }
{
    write_mark(out, Mark::Equal)?;
    write_expr(out, x)
}

/// Writes the type of a reference.
pub fn write_reference(out: &mut Items<Word>, x: ReferenceHead) -> Result<(), AllocError>
    ensures { OnOk result (out.new ≡ out.old ++ words_of (reference_written x)) }
{
    if x.is_const {
        out.push(key(b"const"))?;
    }
    out.push(element_word(x.element))?;
    write_mark(out, Mark::And)
}

/// Writes expressions between two marks.
fn write_bracketed_list(
    out: &mut Items<Word>,
    first: Mark,
    xs: &[Expr],
    last: Mark,
) -> Result<(), AllocError>
    ensures { OnOk result
        (out.new ≡ out.old ++ (Word.Mark first ∷ (words_of (list_written (exprs_of xs.now)) ++ Word.Mark last ∷ []))) }
{
    write_mark(out, first)?;
    write_list(out, xs)?;
    write_mark(out, last)
}

/// Writes what a container is made from.
#[tactic(auto, using(crate::proofs::WrittenLaws::appends))]
fn write_initializer(out: &mut Items<Word>, x: &Initializer) -> Result<(), AllocError>
    ensures { OnOk result (out.new ≡ out.old ++ words_of (initializer_written (initializer_of x.now))) }
{
    match x {
        Initializer::Absent => Ok(()),
        Initializer::Copy(other) => {
            write_mark(out, Mark::Equal)?;
            write_name(out, other)
        }
        Initializer::Braces { equal, elements } => {
            if *equal {
                write_mark(out, Mark::Equal)?;
            }
            write_bracketed_list(out, Mark::LeftBrace, elements, Mark::RightBrace)
        }
        Initializer::Arguments(arguments) => write_bracketed_list(
            out,
            Mark::LeftParenthesis,
            arguments,
            Mark::RightParenthesis,
        ),
    }
}

/// Writes a declaration.
#[tactic(auto, using(crate::proofs::WrittenLaws::appends))]
pub fn write_declaration(out: &mut Items<Word>, x: &Declaration) -> Result<(), AllocError>
    ensures { OnOk result (out.new ≡ out.old ++ words_of (declaration_written (declaration_of x.now))) }
{
    match x {
        Declaration::Scalar {
            scalar,
            name,
            value,
            ..
        } => {
            out.push(scalar_word(*scalar))?;
            write_name(out, name)?;
            match value {
                Some(value) => write_value(out, value),
                None => Ok(()),
            }
        }
        Declaration::Auto { name, value, .. } => {
            out.push(key(b"auto"))?;
            write_name(out, name)?;
            write_value(out, value)
        }
        Declaration::Reference { head, name, value } => {
            write_reference(out, *head)?;
            write_name(out, name)?;
            write_value(out, value)
        }
        Declaration::Container {
            container,
            name,
            initializer,
        } => {
            write_container(out, *container)?;
            write_name(out, name)?;
            write_initializer(out, initializer)
        }
    }
}
