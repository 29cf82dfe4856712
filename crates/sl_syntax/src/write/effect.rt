//! The words of what is done for its effect, and of what is tested.
ghost use Rattle.std.specs.Prelude.{◌≡◌, ◌++◌, [], ◌∷◌, map, OnOk};
ghost use Rattle.sl_syntax.specs.TreeView.{out_of, effect_of, cond_of};
ghost use Rattle.sl_syntax.specs.Written.{words_of, read_written, print_written, out_written, effect_written};
ghost use Rattle.sl_syntax.specs.Written.{cond_written};

use crate::tree::{Cond, Effect, Out, Print, Read};
use crate::write::expr::write_expr;
use crate::write::marks::assignment_mark;
use crate::write::word::{lib, write_mark, write_name};
use sl_base::{Items, Mark, Word};
use std::alloc::{AllocError, Global};

/// Writes what reads variables.
fn write_read(out: &mut Items<Word>, read: &Read) -> Result<(), AllocError>
    ensures { OnOk result (out.new ≡ out.old ++ words_of (read_written read.now)) }
{
    out.push(lib(b"cin"))?;
    for x in read.variables.as_slice() {
        write_mark(out, Mark::ShiftRight)?;
        write_name(out, x)?;
    }
    Ok(())
}

/// Writes an item of a print.
fn write_out(alloc: Global, out: &mut Items<Word>, x: &Out) -> Result<(), AllocError>
    ensures { OnOk result (out.new ≡ out.old ++ words_of (out_written (out_of x.now))) }
{
    match x {
        Out::Text { text, .. } => {
            let copied = Items::from_slice(alloc, text.as_slice())?;
            out.push(Word::Text(copied))
        }
        Out::EndLine { .. } => out.push(lib(b"endl")),
        Out::Value(x) => write_expr(out, x),
    }
}

/// Writes what puts items out.
fn write_print(alloc: Global, out: &mut Items<Word>, print: &Print) -> Result<(), AllocError>
    ensures { OnOk result
        (out.new ≡ out.old ++ words_of (print_written print.now.place (map out_of print.now.items.items))) }
{
    out.push(lib(b"cout"))?;
    for x in &print.items {
        write_mark(out, Mark::ShiftLeft)?;
        write_out(alloc, out, x)?;
    }
    Ok(())
}

/// Writes what is done for its effect.
#[tactic(auto, using(crate::proofs::WrittenLaws::appends))]
pub fn write_effect(alloc: Global, out: &mut Items<Word>, x: &Effect) -> Result<(), AllocError>
    ensures { OnOk result (out.new ≡ out.old ++ words_of (effect_written (effect_of x.now))) }
{
    match x {
        Effect::Read(read) => write_read(out, read),
        Effect::Print(print) => write_print(alloc, out, print),
        Effect::Value(x) => write_expr(out, x),
        Effect::Assign {
            left,
            operator,
            right,
            ..
        } => {
            write_expr(out, left)?;
            write_mark(out, assignment_mark(*operator))?;
            write_expr(out, right)
        }
    }
}

/// Writes what is tested.
#[tactic(auto, using(crate::proofs::WrittenLaws::appends))]
pub fn write_cond(out: &mut Items<Word>, x: &Cond) -> Result<(), AllocError>
    ensures { OnOk result (out.new ≡ out.old ++ words_of (cond_written (cond_of x.now))) }
{
    match x {
        Cond::Read(read) => write_read(out, read),
        Cond::NotRead { read, .. } => {
            write_mark(out, Mark::Not)?;
            write_mark(out, Mark::LeftParenthesis)?;
            write_read(out, read)?;
            write_mark(out, Mark::RightParenthesis)
        }
        Cond::Value(x) => write_expr(out, x),
    }
}
