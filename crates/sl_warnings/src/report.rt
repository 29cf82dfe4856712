ghost use Rattle.std.specs.Prelude.{◌≡◌, ◌≢◌, ◌<◌, ◌≤◌, ◌↔◌, ℕ, [], length, slice_get, insert, OnOk, OnErr, IsSome};
ghost use Rattle.std.specs.Option.{option_map};
ghost use Rattle.indexmap.specs.IndexMap.{index_map_len, keys};
ghost use Rattle.sl_warnings.specs.Reports.{IsAscending, added, with_killers_at};
ghost use Rattle.sl_warnings.specs.Views.{warning_of, sites_in};
ghost use Rattle.sl_warnings.specs.Means.Kept.{listed, IsNew};

use crate::spot::Spot;
use crate::warning::Warning;
use indexmap::IndexMap;
use sl_kind::Kills;
use std::alloc::{AllocError, Global};
use std::marker::Model;

/// The warnings by line, column, kind and argument, of which no two have the same four. A contract sees the list of
/// what they tell.
#[derive(Drop)]
pub struct Report {
    warnings: IndexMap<Spot, Warning>,
}

impl Model for Report {
    ghost use Rattle.sl_warnings.specs.Views.{Told};
    ghost use Rattle.sl_warnings.specs.Means.Kept.{listed, IsKept};

    ghost Value = { Told };

    ghost view = { λ r. listed r.warnings.entries };

    ghost invariant = { λ r. IsKept r.warnings.entries };
}

impl Report {
    /// A report with no warning. It takes no memory.
    pub fn new(alloc: Global) -> Report
        ensures { result ≡ [] }
    {
        Report {
            warnings: IndexMap::new(alloc),
        }
    }

    /// Adds a warning: where there is one at the same place, of the same kind and argument, that one gets its killers
    /// too and is else as it was, and else it goes to its place in the order. All others stay. After AllocError the
    /// report is as it was.
    pub fn add(&mut self, warning: Warning) -> Result<(), AllocError>
        ensures added { OnOk result (self.new ≡ added (warning_of warning) self.old) }
        ensures kept { OnErr result (self.new ≡ self.old) }
    {
        let spot = warning.spot();
        match self.warnings.binary_search_keys(&spot) {
            Ok(at) => {
                join_at(&mut self.warnings, at, &warning.killers);
                Ok(())
            }
            Err(at) => put_at(&mut self.warnings, at, spot, warning),
        }
    }

    /// The number of warnings.
    pub fn len(&self) -> usize
        ensures value { result ≡ length self.now }
        ensures ascending { IsAscending self.now }
    {
        self.warnings.len()
    }

    /// The warning at a place of the order, from 0. None is for a place behind the last one.
    pub fn get(&self, i: usize) -> Option<&Warning>
        ensures value { option_map (λ w. warning_of w.now) result ≡ slice_get self.now i }
        ensures found { IsSome result ↔ (i < length self.now) }
    {
        match self.warnings.get_index(i) {
            Some((_, warning)) => Some(warning),
            None => None,
        }
    }
}

// Adds killers to the warning at an index.
fn join_at(warnings: &mut IndexMap<Spot, Warning>, at: usize, killers: &Kills)
    requires { at < index_map_len warnings.old }
    ensures keys { keys warnings.new ≡ keys warnings.old }
    ensures joined { listed warnings.new.entries
        ≡ with_killers_at (listed warnings.old.entries) at (sites_in killers.now) }
{
    warnings[at].join(killers);
}

// Puts a warning with a new spot in at an index.
fn put_at(
    warnings: &mut IndexMap<Spot, Warning>,
    at: usize,
    spot: Spot,
    warning: Warning,
) -> Result<(), AllocError>
    requires within { at ≤ index_map_len warnings.old }
    requires new { IsNew spot (keys warnings.old) }
    ensures put { OnOk result (warnings.new.entries ≡ insert warnings.old.entries at (spot, warning)) }
    ensures kept { OnErr result (warnings.new.entries ≡ warnings.old.entries) }
{
    warnings.insert_before(at, spot, warning)?;
    Ok(())
}
