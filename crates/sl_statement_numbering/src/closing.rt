//! Sites that stand alone: the `=` of an assignment, and the closing brace of a block.
ghost use Rattle.std.specs.Prelude.{◌≡◌, [], ◌==◌, ◌≤◌, ◌&&◌, false, length, IfOk, OnOk, Some, None, if◌then◌else◌};
ghost use Rattle.sl_base.specs.declared.limits.TheConstants.{SITES};
ghost use Rattle.sl_syntax.specs.TreeView.{items_of};
ghost use Rattle.sl_typing.specs.Contexts.{with_sites};
ghost use Rattle.sl_typing.specs.Sites as sites;
ghost use Rattle.sl_typing.specs.StatementFaults as faults;
ghost use Rattle.sl_number_limits.specs.Fits.{Fits};

use sl_base::{Place, Site};
use sl_contexts::Known;
use sl_expr_sites::pass_brace;
use sl_statement_types::declares_container;
use sl_syntax::Item;
use std::alloc::AllocError;

/// The number of the site that stands here, if one does. It takes no memory.
pub fn site_here(known: &Known, is_site: bool) -> Option<Site>
    requires free { (is_site && (length known.now.sites == SITES)) ≡ false }
    requires within { length known.now.sites ≤ SITES }
    ensures { result ≡ (if is_site then Some (length known.now.sites) else None) }
{
    if is_site {
        Some(Site::new(known.sites() as u16))
    } else {
        None
    }
}

/// The number of the site of a block's closing brace, if it is one; then is known what is known behind the brace.
pub fn closing_brace(
    known: &mut Known,
    items: &[Item],
    close: Place,
) -> Result<Option<Site>, AllocError>
    requires fits { Fits known.old }
    requires kept { faults.site_faults known.old (sites.declares_container (items_of items.now)) close ≡ [] }
    ensures site { IfOk result (λ site. site
        ≡ (if sites.declares_container (items_of items.now) then Some (length known.old.sites) else None)) }
    ensures behind { OnOk result (known.new ≡ with_sites (sites.brace_site (items_of items.now) close) known.old) }
{
    let site = site_here(known, declares_container(items));
    pass_brace(known, items, close)?;
    Ok(site)
}
