//! The text of a report.
ghost use Rattle.std.specs.Prelude.{◌≡◌, ◌++◌, flat_map, IfOk, OnOk};
ghost use Rattle.sl_model.specs.Reports.Texts.{warning_line, report_text};
ghost use Rattle.sl_warnings.specs.Views.{warning_of};

use crate::killers::push_killers;
use crate::report::Report;
use crate::warning::Warning;
use sl_base::{Items, Place};
use sl_wording::{kind_words, push_who};
use std::alloc::{AllocError, Global};

/// The text of a report on a file of this name, in which the site with number i has the i-th of these places: a line
/// for each warning and one with their number, or the one line of a text that passed. A site that has no place gives
/// no bytes, nor does a kind that has no words.
pub fn render(
    alloc: Global,
    name: &str,
    sites: &[Place],
    r: &Report,
) -> Result<Items<u8>, AllocError>
    ensures { IfOk result (λ bytes. bytes ≡ report_text name.now sites.now r.now) }
{
    let mut out = Items::new(alloc);
    let count = r.len();
    if count == 0 {
        out.extend_from_slice(format!(in alloc; "{name}: passed\n")?.as_bytes())?;
        return Ok(out);
    }
    push_warnings(alloc, &mut out, name, sites, r)?;
    out.extend_from_slice(format!(in alloc; "{name}: warnings: {count}\n")?.as_bytes())?;
    Ok(out)
}

// The lines of the warnings.
fn push_warnings(
    alloc: Global,
    out: &mut Items<u8>,
    name: &str,
    sites: &[Place],
    r: &Report,
) -> Result<(), AllocError>
    ensures { OnOk result (out.new ≡ out.old ++ flat_map (warning_line name.now sites.now) r.now) }
{
    for i in 0..r.len() {
        match r.get(i) {
            Some(warning) => push_warning(alloc, out, name, sites, warning)?,
            None => {}
        }
    }
    Ok(())
}

fn push_warning(
    alloc: Global,
    out: &mut Items<u8>,
    name: &str,
    sites: &[Place],
    warning: &Warning,
) -> Result<(), AllocError>
    ensures { OnOk result (out.new ≡ out.old ++ warning_line name.now sites.now (warning_of warning.now)) }
{
    let line = warning.place.line;
    let col = warning.place.col;
    let call = warning.call.as_slice();
    out.extend_from_slice(format!(in alloc; "{name}:{line}:{col}: ")?.as_bytes())?;
    out.extend_from_slice(kind_words(warning.kind).as_bytes())?;
    out.extend_from_slice(b" in ")?;
    out.extend_from_slice(call)?;
    out.extend_from_slice(b": ")?;
    push_who(alloc, out, call, warning.argument, &warning.name)?;
    push_killers(alloc, out, sites, warning.kind, &warning.killers)?;
    out.extend_from_slice(b"\n")?;
    Ok(())
}
