//! The text of a failed need.
ghost use Rattle.std.specs.Prelude.{◌≡◌, ◌++◌, OnOk, option_to_list};
ghost use Rattle.sl_model.specs.Reports.Texts.{sites_text};
ghost use Rattle.sl_end_text.specs.Means.Lines.{info_text};

use sl_base::{Items, Place, Site};
use sl_model::TrapInfo;
use sl_wording::{kind_words, push_place, push_sites, push_who};
use std::alloc::{AllocError, Global};

// A failed need: its place, its kind, the call, whose need it is, and where it was dropped.
pub fn push_trap(
    alloc: Global,
    out: &mut Items<u8>,
    sites: &[Place],
    trap: &TrapInfo,
) -> Result<(), AllocError>
    ensures { OnOk result (out.new ≡ out.old ++ info_text sites.now trap.now) }
{
    let call = trap.call.as_slice();
    push_place(alloc, out, trap.place)?;
    out.extend_from_slice(b": ")?;
    out.extend_from_slice(kind_words(trap.kind).as_bytes())?;
    out.extend_from_slice(b" in ")?;
    out.extend_from_slice(call)?;
    out.extend_from_slice(b": ")?;
    push_who(alloc, out, call, trap.argument, &trap.name)?;
    push_killer(alloc, out, sites, trap.killer)?;
    Ok(())
}

// The place of the site that dropped an iterator or a reference, where there is one.
fn push_killer(
    alloc: Global,
    out: &mut Items<u8>,
    sites: &[Place],
    killer: Option<Site>,
) -> Result<(), AllocError>
    ensures { OnOk result (out.new ≡ out.old ++ sites_text sites.now (option_to_list killer)) }
{
    match killer {
        Some(site) => push_sites(alloc, out, sites, &[site]),
        None => Ok(()),
    }
}
