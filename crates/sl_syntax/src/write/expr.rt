//! The words of expressions.
ghost use Rattle.std.specs.Prelude.{◌≡◌, ◌++◌, [], ◌∷◌, OnOk};
ghost use Rattle.sl_syntax.specs.TreeView.{expr_of, exprs_of};
ghost use Rattle.sl_syntax.specs.Written.{words_of, written, list_written};

use crate::tree::Expr;
use crate::write::marks::{binary_mark, postfix_mark, prefix_mark, selector_mark};
use crate::write::word::{lib, name_word, truth_word, write_comma_before, write_mark, write_name};
use sl_base::{Items, Mark, Word};
use std::alloc::AllocError;

/// Writes an expression.
#[cycle(expression)]
#[tactic(auto, using(crate::proofs::ExprWords::expr_words))]
pub fn write_expr(out: &mut Items<Word>, x: &Expr) -> Result<(), AllocError>
    ensures { OnOk result (out.new ≡ out.old ++ words_of (written (expr_of x.now))) }
{
    match x {
        Expr::Number { value, .. } => out.push(Word::Number(*value)),
        Expr::Truth { value, .. } => out.push(truth_word(*value)),
        Expr::Name(name) => write_name(out, name),
        Expr::Call {
            function,
            arguments,
        } => write_call(out, name_word(function), arguments),
        Expr::LibraryCall {
            function,
            arguments,
        } => write_call(out, lib(function.name.as_slice()), arguments),
        Expr::Parentheses { inner, .. } => {
            write_bracketed(out, Mark::LeftParenthesis, inner, Mark::RightParenthesis)
        }
        Expr::Prefix {
            operator,
            operand,
            ..
        } => {
            write_mark(out, prefix_mark(*operator))?;
            write_expr(out, operand)
        }
        Expr::Binary {
            left,
            operator,
            right,
            ..
        } => {
            write_expr(out, left)?;
            write_mark(out, binary_mark(*operator))?;
            write_expr(out, right)
        }
        Expr::Postfix {
            operand,
            operator,
            ..
        } => {
            write_expr(out, operand)?;
            write_mark(out, postfix_mark(*operator))
        }
        Expr::Index { object, index, .. } => {
            write_expr(out, object)?;
            write_bracketed(out, Mark::LeftBracket, index, Mark::RightBracket)
        }
        Expr::MemberCall {
            object,
            function,
            arguments,
        } => {
            write_expr(out, object)?;
            write_mark(out, Mark::Dot)?;
            write_call(out, name_word(function), arguments)
        }
        Expr::Member {
            object,
            selector,
            member,
            ..
        } => {
            write_expr(out, object)?;
            write_mark(out, selector_mark(*selector))?;
            write_name(out, member)
        }
    }
}

/// Writes an expression between two marks.
#[cycle(expression)]
fn write_bracketed(
    out: &mut Items<Word>,
    first: Mark,
    x: &Expr,
    last: Mark,
) -> Result<(), AllocError>
    ensures { OnOk result
        (out.new ≡ out.old ++ (Word.Mark first ∷ (words_of (written (expr_of x.now)) ++ Word.Mark last ∷ []))) }
{
    write_mark(out, first)?;
    write_expr(out, x)?;
    write_mark(out, last)
}

/// Writes the word that names a function, and its arguments.
#[cycle(expression)]
fn write_call(out: &mut Items<Word>, word: Word, arguments: &[Expr]) -> Result<(), AllocError>
    ensures { OnOk result
        (out.new ≡ out.old ++ (word ∷ Word.Mark Mark.LeftParenthesis
        ∷ (words_of (list_written (exprs_of arguments.now)) ++ Word.Mark Mark.RightParenthesis ∷ []))) }
{
    out.push(word)?;
    write_mark(out, Mark::LeftParenthesis)?;
    write_list(out, arguments)?;
    write_mark(out, Mark::RightParenthesis)
}

/// Writes expressions with a comma between two.
#[cycle(expression)]
pub fn write_list(out: &mut Items<Word>, xs: &[Expr]) -> Result<(), AllocError>
    ensures { OnOk result (out.new ≡ out.old ++ words_of (list_written (exprs_of xs.now))) }
{
    for (i, x) in xs.iter().enumerate() {
        write_comma_before(out, i)?;
        write_expr(out, x)?;
    }
    Ok(())
}
