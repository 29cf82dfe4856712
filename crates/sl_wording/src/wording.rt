//! The words for the kind of a failure and for the one whose need it is.
ghost use Rattle.std.specs.Prelude.{◌≡◌, ◌++◌, OnOk};
ghost use Rattle.sl_model.specs.Reports.Texts.{kind_text, who_text, name_text, name_in_for};

use sl_base::{Items, Name, failures};
use std::alloc::{AllocError, Global};

/// The words for a kind, none where the number is no kind's.
pub fn kind_words(kind: u8) -> &'static str
    ensures { result.now ≡ kind_text kind }
{
    match kind {
        failures::INVALID_ITERATOR => "invalid iterator",
        failures::WRONG_CONTAINER => "wrong container",
        failures::BAD_RANGE => "bad range",
        failures::END_ITERATOR => "end iterator",
        failures::OUT_OF_RANGE => "out of range",
        failures::EMPTY_CONTAINER => "empty container",
        failures::OWN_ELEMENTS => "own elements",
        failures::NO_ROOM => "no room",
        failures::OVERLAP => "overlap",
        failures::NOT_PARTITIONED => "not partitioned",
        failures::NOT_SORTED => "not sorted",
        failures::INVALID_REFERENCE => "invalid reference",
        _ => "",
    }
}

/// Puts whose need it is behind `out`: the name of the argument of a call, or its number where it has none.
pub fn push_who(
    alloc: Global,
    out: &mut Items<u8>,
    call: &[u8],
    argument: u8,
    name: &Option<Name>,
) -> Result<(), AllocError>
    ensures { OnOk result (out.new ≡ out.old ++ who_text call.now argument name.now) }
{
    match name {
        Some(name) => push_name(out, call, argument, name.as_slice()),
        None => out.extend_from_slice(format!(in alloc; "argument {argument}")?.as_bytes()),
    }
}

// An argument's name in a call.
fn push_name(out: &mut Items<u8>, call: &[u8], argument: u8, name: &[u8]) -> Result<(), AllocError>
    ensures { OnOk result (out.new ≡ out.old ++ name_text call.now argument name.now) }
{
    if call == b"for".as_slice() {
        push_in_for(out, argument, name)
    } else {
        out.extend_from_slice(name)
    }
}

// The name of the container of a range-for, with which of its iterators it is.
fn push_in_for(out: &mut Items<u8>, argument: u8, name: &[u8]) -> Result<(), AllocError>
    ensures { OnOk result (out.new ≡ out.old ++ name_in_for argument name.now) }
{
    if argument == 1 {
        out.extend_from_slice(b"begin of ")?;
    } else if argument == 2 {
        out.extend_from_slice(b"end of ")?;
    }
    out.extend_from_slice(name)
}
