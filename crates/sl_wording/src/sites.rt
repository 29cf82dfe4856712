//! The text of a place, and of the places of sites.
ghost use Rattle.std.specs.Prelude.{◌≡◌, ◌++◌, OnOk};
ghost use Rattle.sl_model.specs.Reports.Texts.{place_text, site_text, further_sites, sites_text};

use sl_base::{Items, Place, Site};
use std::alloc::{AllocError, Global};

/// Puts the places of these sites behind `out`, in their order and with the words before them: those at which an
/// iterator or a reference may have been invalidated. The site with number i has the i-th of the places. A site that
/// has none gives no bytes, nor do no sites at all.
pub fn push_sites(
    alloc: Global,
    out: &mut Items<u8>,
    sites: &[Place],
    killers: &[Site],
) -> Result<(), AllocError>
    ensures { OnOk result (out.new ≡ out.old ++ sites_text sites.now killers.now) }
{
    if let [first, more @ ..] = killers {
        out.extend_from_slice(b", invalidated at ")?;
        push_site(alloc, out, sites, *first)?;
        push_further(alloc, out, sites, more)?;
    }
    Ok(())
}

fn push_further(
    alloc: Global,
    out: &mut Items<u8>,
    sites: &[Place],
    killers: &[Site],
) -> Result<(), AllocError>
    ensures { OnOk result (out.new ≡ out.old ++ further_sites sites.now killers.now) }
{
    for killer in killers {
        out.extend_from_slice(b", ")?;
        push_site(alloc, out, sites, *killer)?;
    }
    Ok(())
}

// The place of a site.
fn push_site(
    alloc: Global,
    out: &mut Items<u8>,
    sites: &[Place],
    site: Site,
) -> Result<(), AllocError>
    ensures { OnOk result (out.new ≡ out.old ++ site_text sites.now site) }
{
    match sites.get(usize::from(site.number())) {
        Some(place) => push_place(alloc, out, *place),
        None => Ok(()),
    }
}

/// Puts a line and a column behind `out`.
pub fn push_place(alloc: Global, out: &mut Items<u8>, place: Place) -> Result<(), AllocError>
    ensures { OnOk result (out.new ≡ out.old ++ place_text place) }
{
    let line = place.line;
    let col = place.col;
    out.extend_from_slice(format!(in alloc; "{line}:{col}")?.as_bytes())
}
