//! The words of functions.
ghost use Rattle.std.specs.Prelude.{◌≡◌, ◌++◌, [], ◌∷◌, OnOk};
ghost use Rattle.sl_syntax.specs.TreeView.{function_of};
ghost use Rattle.sl_syntax.specs.Written.{words_of, iterator_written, result_written, param_written, params_written};
ghost use Rattle.sl_syntax.specs.Written.{function_written};

use crate::tree::{Function, IteratorType, Param, ResultType};
use crate::write::statement::write_block;
use crate::write::word::{
    key, scalar_word, write_comma_before, write_container, write_mark, write_name,
};
use sl_base::{Items, Mark, Word};
use std::alloc::{AllocError, Global};

/// Writes the type of an iterator.
#[tactic(auto, using(crate::proofs::WrittenLaws::appends))]
fn write_iterator(out: &mut Items<Word>, x: &IteratorType) -> Result<(), AllocError>
    ensures { OnOk result (out.new ≡ out.old ++ words_of (iterator_written x.now)) }
{
    write_container(out, x.container)?;
    write_mark(out, Mark::ColonColon)?;
    write_name(out, &x.name)
}

/// Writes what a function gives back.
fn write_result(out: &mut Items<Word>, x: &ResultType) -> Result<(), AllocError>
    ensures { OnOk result (out.new ≡ out.old ++ words_of (result_written x.now)) }
{
    match x {
        ResultType::Void => out.push(key(b"void")),
        ResultType::Scalar(scalar) => out.push(scalar_word(*scalar)),
        ResultType::Iterator(iterator) => write_iterator(out, iterator),
    }
}

/// Writes a parameter.
#[tactic(auto, using(crate::proofs::WrittenLaws::appends))]
fn write_param(out: &mut Items<Word>, x: &Param) -> Result<(), AllocError>
    ensures { OnOk result (out.new ≡ out.old ++ words_of (param_written x.now)) }
{
    match x {
        Param::Value { scalar, name, .. } => {
            out.push(scalar_word(*scalar))?;
            write_name(out, name)
        }
        Param::Reference { scalar, name, .. } => {
            out.push(scalar_word(*scalar))?;
            write_mark(out, Mark::And)?;
            write_name(out, name)
        }
        Param::Container { container, name } => {
            write_container(out, *container)?;
            write_mark(out, Mark::And)?;
            write_name(out, name)
        }
        Param::ConstContainer {
            container,
            name,
            ..
        } => {
            out.push(key(b"const"))?;
            write_container(out, *container)?;
            write_mark(out, Mark::And)?;
            write_name(out, name)
        }
        Param::Iterator { iterator, name } => {
            write_iterator(out, iterator)?;
            write_name(out, name)
        }
    }
}

/// Writes parameters with a comma between two.
fn write_params(out: &mut Items<Word>, params: &[Param]) -> Result<(), AllocError>
    ensures { OnOk result (out.new ≡ out.old ++ words_of (params_written params.now)) }
{
    for (i, param) in params.iter().enumerate() {
        write_comma_before(out, i)?;
        write_param(out, param)?;
    }
    Ok(())
}

/// Writes a function.
#[tactic(auto, using(crate::proofs::FunctionWords::function_words))]
pub fn write_function(alloc: Global, out: &mut Items<Word>, x: &Function) -> Result<(), AllocError>
    ensures { OnOk result (out.new ≡ out.old ++ words_of (function_written (function_of x.now))) }
{
    write_result(out, &x.result)?;
    write_name(out, &x.name)?;
    write_mark(out, Mark::LeftParenthesis)?;
    write_params(out, &x.params)?;
    write_mark(out, Mark::RightParenthesis)?;
    write_block(alloc, out, &x.body)
}
