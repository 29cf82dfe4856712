//! The line that says how a run ended.
ghost use Rattle.std.specs.Prelude.{◌≡◌, ◌++◌, OnOk, codes};
ghost use Rattle.std.specs.Fmt.{signed_decimal};
ghost use Rattle.sl_model.specs.Reports.EndText.{run_line, fault_text};
ghost use Rattle.sl_model.specs.Reports.Texts.{place_text};
ghost use Rattle.sl_end_text.specs.Means.Lines.{code_line, info_text};

use crate::trap::push_trap;
use sl_base::{Items, Place};
use sl_model::{End, TrapInfo};
use sl_wording::push_place;
use std::alloc::{AllocError, Global};

// The line of an end.
pub fn push_end(
    alloc: Global,
    out: &mut Items<u8>,
    sites: &[Place],
    end: &End,
) -> Result<(), AllocError>
    ensures { OnOk result (out.new ≡ out.old ++ code_line sites.now end.now) }
{
    match end {
        End::Done(value) => push_done(alloc, out, *value),
        End::Trap(trap) => push_trapped(alloc, out, sites, trap),
        End::OutOfSteps => push_out_of_steps(out),
        End::Language { place, why } => push_fault(alloc, out, *place, *why),
        End::Thrown { place } => push_thrown(alloc, out, *place),
    }
}

fn push_done(alloc: Global, out: &mut Items<u8>, value: i32) -> Result<(), AllocError>
    ensures { OnOk result (out.new ≡ out.old ++ run_line (codes "done " ++ signed_decimal value)) }
{
    out.extend_from_slice(b"run: done ")?;
    out.extend_from_slice(format!(in alloc; "{value}")?.as_bytes())?;
    out.push(b'\n')?;
    Ok(())
}

fn push_trapped(
    alloc: Global,
    out: &mut Items<u8>,
    sites: &[Place],
    trap: &TrapInfo,
) -> Result<(), AllocError>
    ensures { OnOk result (out.new ≡ out.old ++ run_line (codes "trap at " ++ info_text sites.now trap.now)) }
{
    out.extend_from_slice(b"run: trap at ")?;
    push_trap(alloc, out, sites, trap)?;
    out.push(b'\n')?;
    Ok(())
}

fn push_out_of_steps(out: &mut Items<u8>) -> Result<(), AllocError>
    ensures { OnOk result (out.new ≡ out.old ++ run_line (codes "out of steps")) }
{
    out.extend_from_slice(b"run: out of steps\n")?;
    Ok(())
}

fn push_fault(alloc: Global, out: &mut Items<u8>, place: Place, why: u8) -> Result<(), AllocError>
    ensures { OnOk result (out.new
        ≡ out.old ++ run_line (codes "language fault at " ++ (place_text place ++ (codes ": " ++ fault_text why)))) }
{
    out.extend_from_slice(b"run: language fault at ")?;
    push_place(alloc, out, place)?;
    out.extend_from_slice(b": ")?;
    out.extend_from_slice(fault_words(why).as_bytes())?;
    out.push(b'\n')?;
    Ok(())
}

// The words for a fault of the language, none where the number is no fault's.
fn fault_words(why: u8) -> &'static str
    ensures { result.now ≡ fault_text why }
{
    match why {
        1 => "overflow",
        2 => "zero divisor",
        3 => "unset variable",
        4 => "no return value",
        5 => "too many calls",
        _ => "",
    }
}

fn push_thrown(alloc: Global, out: &mut Items<u8>, place: Place) -> Result<(), AllocError>
    ensures { OnOk result (out.new ≡ out.old ++ run_line (codes "exception at " ++ place_text place)) }
{
    out.extend_from_slice(b"run: exception at ")?;
    push_place(alloc, out, place)?;
    out.push(b'\n')?;
    Ok(())
}
