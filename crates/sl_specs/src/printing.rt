//! The text of the table.
ghost use Rattle.std.specs.Prelude.{◌≡◌, ◌++◌, map, IfOk, OnOk, codes};
ghost use Rattle.sl_specs.specs.Texts as texts;
ghost use Rattle.sl_specs.specs.Printed as spec;
ghost use Rattle.sl_specs.specs.Entries.{entry_row};

use crate::each_row;
use crate::entry::Entry;
use crate::letter::Letter;
use crate::need::Need;
use sl_base::{Form, Items};
use std::alloc::{AllocError, Global};

/// The text of the table: a line for each row, and one with their number.
pub fn print_rows(alloc: Global) -> Result<Items<u8>, AllocError>
    ensures { IfOk result (λ text. text ≡ spec.table_text) }
{
    let mut out = Items::new(alloc);
    each_row!(entry => {
        push_row(&mut out, entry)?;
    });
    out.extend_from_slice(b"231 rows\n")?;
    Ok(out)
}

// The line of a row.
fn push_row(out: &mut Items<u8>, entry: &Entry) -> Result<(), AllocError>
    ensures { OnOk result (out.new ≡ out.old ++ spec.row_line (entry_row entry.now)) }
{
    push_call(out, entry)?;
    out.extend_from_slice(b": needs ")?;
    push_needs(out, entry.needs)?;
    out.extend_from_slice(b"; kills ")?;
    out.extend_from_slice(entry.kills.text().as_bytes())?;
    out.extend_from_slice(b"\n")?;
    Ok(())
}

// The call with its arguments.
fn push_call(out: &mut Items<u8>, entry: &Entry) -> Result<(), AllocError>
    ensures { OnOk result (out.new ≡ out.old ++ spec.call_line (entry_row entry.now)) }
{
    push_owner(out, entry.form)?;
    out.extend_from_slice(entry.call.text().as_bytes())?;
    out.extend_from_slice(b"(")?;
    push_letters(out, entry.signature.letters)?;
    out.extend_from_slice(b")")?;
    Ok(())
}

fn push_owner(out: &mut Items<u8>, form: Option<Form>) -> Result<(), AllocError>
    ensures { OnOk result (out.new ≡ out.old ++ spec.owner_text form) }
{
    match form {
        Some(form) => {
            out.extend_from_slice(form_text(form).as_bytes())?;
            out.extend_from_slice(b".")?;
        }
        None => out.extend_from_slice(b"std::")?,
    }
    Ok(())
}

fn form_text(form: Form) -> &'static str
    ensures { result.now ≡ texts.form_text form }
{
    match form {
        Form::Vector => "vector",
        Form::Deque => "deque",
        Form::List => "list",
        Form::Set => "set",
        Form::Map => "map",
        Form::HashSet => "unordered_set",
        Form::HashMap => "unordered_map",
        Form::MultiSet => "multiset",
        Form::MultiMap => "multimap",
    }
}

fn push_letters(out: &mut Items<u8>, letters: &[Letter]) -> Result<(), AllocError>
    ensures { OnOk result (out.new ≡ out.old ++ spec.letters_text letters.now) }
{
    if let [first, others @ ..] = letters {
        out.extend_from_slice(first.text().as_bytes())?;
        push_other_letters(out, others)?;
    }
    Ok(())
}

fn push_other_letters(out: &mut Items<u8>, letters: &[Letter]) -> Result<(), AllocError>
    ensures { OnOk result (out.new ≡ out.old ++ spec.other_letters letters.now) }
{
    for letter in letters {
        out.extend_from_slice(b", ")?;
        out.extend_from_slice(letter.text().as_bytes())?;
    }
    Ok(())
}

fn push_needs(out: &mut Items<u8>, needs: &[Need]) -> Result<(), AllocError>
    ensures { OnOk result (out.new ≡ out.old ++ spec.needs_text needs.now) }
{
    if let [first, others @ ..] = needs {
        out.extend_from_slice(first.text().as_bytes())?;
        push_other_needs(out, others)
    } else {
        out.extend_from_slice(b"-")
    }
}

fn push_other_needs(out: &mut Items<u8>, needs: &[Need]) -> Result<(), AllocError>
    ensures { OnOk result (out.new ≡ out.old ++ spec.other_needs needs.now) }
{
    for need in needs {
        out.extend_from_slice(b" ")?;
        out.extend_from_slice(need.text().as_bytes())?;
    }
    Ok(())
}
