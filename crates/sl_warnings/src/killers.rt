//! The text of the places at which an iterator or a reference may have been invalidated.
ghost use Rattle.std.specs.Prelude.{◌≡◌, [], ◌∷◌, ◌++◌, if◌then◌else◌, IfOk, OnOk};
ghost use Rattle.sl_kind.specs.Kills.{has};
ghost use Rattle.sl_model.specs.Reports.Texts.{killers_text};
ghost use Rattle.sl_warnings.specs.Views.{sites_in};

use sl_base::failures::{INVALID_ITERATOR, INVALID_REFERENCE};
use sl_base::limits::SITES;
use sl_base::{Items, Place, Site};
use sl_kind::Kills;
use sl_wording::push_sites;
use std::alloc::{AllocError, Global};

// The places of these killers, where the kind is that of an invalid iterator or of an invalid reference.
pub fn push_killers(
    alloc: Global,
    out: &mut Items<u8>,
    sites: &[Place],
    kind: u8,
    killers: &Kills,
) -> Result<(), AllocError>
    ensures { OnOk result (out.new ≡ out.old ++ killers_text sites.now kind (sites_in killers.now)) }
{
    if kind != INVALID_ITERATOR && kind != INVALID_REFERENCE {
        return Ok(());
    }
    let numbers = sites_of(alloc, killers)?;
    push_sites(alloc, out, sites, numbers.as_slice())
}

// The sites of a set in ascending order.
fn sites_of(alloc: Global, killers: &Kills) -> Result<Items<Site>, AllocError>
    ensures { IfOk result (λ sites. sites ≡ sites_in killers.now) }
{
    let mut sites = Items::new(alloc);
    for number in 0..SITES as u16 {
        push_killer(&mut sites, killers, Site::new(number))?;
    }
    Ok(sites)
}

// Puts a site at the end if it is in the set.
fn push_killer(sites: &mut Items<Site>, killers: &Kills, site: Site) -> Result<(), AllocError>
    ensures { OnOk result (sites.new ≡ sites.old ++ (if has killers.now site then site ∷ [] else [])) }
{
    if killers.has(site) {
        sites.push(site)?;
    }
    Ok(())
}
