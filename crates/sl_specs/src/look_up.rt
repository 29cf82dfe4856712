//! Looking rows up.
ghost use Rattle.std.specs.Prelude.{◌≡◌, ◌<◌, ◌≤◌, ◌^◌, map, length, find, option_map, slice_get, IsTrue};
ghost use Rattle.std.specs.List.{list_all};
ghost use Rattle.sl_specs.specs.Forms as forms;
ghost use Rattle.sl_specs.specs.Rows.{asks};
ghost use Rattle.sl_specs.specs.Table as spec;
ghost use Rattle.sl_specs.specs.Texts.{call_text};
ghost use Rattle.sl_specs.specs.Entries.{entry_lib_row, entries_from, entry_row, asked, has_few_needs};

use crate::call::Call;
use crate::entry::{Entry, Signature};
use crate::lib_row::LibRow;
use crate::needs::Needs;
use crate::table::entries;
use sl_base::{Form, Name};

/// The row of a call of a form, or of an algorithm, that has this shape, if there is one. It takes no memory.
pub fn row(form: Option<Form>, call: &Name, shape: u8) -> Option<LibRow>
    ensures { result ≡ spec.row_called form call.now shape }
{
    find_row(entries(), form, call.as_slice(), shape)
}

/// The row with a number, if there is one. It takes no memory.
pub fn row_at(number: u16) -> Option<LibRow>
    ensures { result ≡ spec.row_numbered number }
{
    take_row(entries(), number)
}

/// What typing asks of the row with a number, if there is one. It takes no memory.
pub fn signature(number: u16) -> Option<Signature>
    ensures { option_map asked result ≡ option_map asks (slice_get spec.table number) }
{
    take_signature(entries(), number)
}

fn find_row(entries: &[Entry], form: Option<Form>, call: &[u8], shape: u8) -> Option<LibRow>
    requires short { length entries.now < 2 ^ 16 }
    requires few { IsTrue (list_all has_few_needs entries.now) }
    ensures { result ≡ find (spec.is_called form call.now shape) (entries_from 0 entries.now) }
{
    for (number, entry) in entries.iter().enumerate() {
        if is_called(entry, form, call, shape) {
            return Some(lib_row(entry, number as u16));
        }
    }
    None
}

fn take_row(entries: &[Entry], number: u16) -> Option<LibRow>
    requires { IsTrue (list_all has_few_needs entries.now) }
    ensures { result ≡ slice_get (entries_from 0 entries.now) number }
{
    match entries.get(usize::from(number)) {
        Some(entry) => Some(lib_row(entry, number)),
        None => None,
    }
}

fn take_signature(entries: &[Entry], number: u16) -> Option<Signature>
    ensures { option_map asked result ≡ option_map asks (slice_get (map entry_row entries.now) number) }
{
    match entries.get(usize::from(number)) {
        Some(entry) => Some(entry.signature),
        None => None,
    }
}

// The entry as callers see it.
fn lib_row(entry: &Entry, number: u16) -> LibRow
    requires { length entry.now.needs.now ≤ 3 }
    ensures { result ≡ entry_lib_row number entry.now }
{
    LibRow {
        number,
        form: entry.form,
        call: call_name(entry.call),
        shape: entry.shape,
        needs: Needs::new(entry.needs),
        kills: entry.kills,
    }
}

fn call_name(call: Call) -> Name
    ensures { result ≡ call_text call }
{
    Name::new(call.text().as_bytes())
}

// Whether an entry is of this form, this call and this shape.
fn is_called(entry: &Entry, form: Option<Form>, call: &[u8], shape: u8) -> bool
    ensures { result ≡ spec.is_called form call.now shape (entry_lib_row 0 entry.now) }
{
    same_object(entry.form, form) & (entry.call.text().as_bytes() == call) & (entry.shape == shape)
}

fn same_object(x: Option<Form>, y: Option<Form>) -> bool
    ensures { result ≡ forms.same_object x y }
{
    match (x, y) {
        (None, None) => true,
        (Some(x), Some(y)) => x as u8 == y as u8,
        _ => false,
    }
}
