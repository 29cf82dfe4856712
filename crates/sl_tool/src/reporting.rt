//! The report of what the analysis warns of.
ghost use Rattle.std.specs.Prelude.{◌≡◌, IfOk};
ghost use Rattle.sl_warnings.specs.Views.{warning_of as kept_warning, sites_in};
ghost use Rattle.sl_tool.specs.Exactness.{Ascend};
ghost use Rattle.sl_warnings.specs.Reports.{IsAscending};
ghost use Rattle.sl_tool.specs.Means.Told.{KillersAscend};
ghost use Rattle.sl_tool.specs.Means.Told.{kind_of, killers_in, warning_of, report_of};

use crate::analysis::{Fault, Warning};
use crate::reading::names::copy_of;
use sl_base::failures::{END_ITERATOR, INVALID_ITERATOR};
use sl_base::{Name, Site};
use sl_kind::Kills;
use sl_warnings::{Report, Warning as KeptWarning};
use std::alloc::{AllocError, Global};

/// The report with these warnings, on a text with these names.
pub fn report_on(alloc: Global, names: &[Name], warnings: &[Warning]) -> Result<Report, AllocError>
    requires in_order { IsAscending (report_of names.now warnings.now) }
    requires ascend { KillersAscend (report_of names.now warnings.now) }
    ensures { IfOk result (λ report. report ≡ report_of names.now warnings.now) }
{
    let mut report = Report::new(alloc);
    for warning in warnings {
        report.add(kept(names, warning))?;
    }
    Ok(report)
}

// The warning as a report keeps it.
fn kept(names: &[Name], warning: &Warning) -> KeptWarning
    requires { Ascend (killers_in warning.now.fault) }
    ensures { kept_warning result ≡ warning_of names.now warning.now }
{
    KeptWarning {
        place: warning.place,
        kind: kind_of(&warning.fault),
        call: Name::new(b"*"),
        argument: 1,
        name: names.get(usize::from(warning.name)).map(copy_of),
        killers: killers_in(&warning.fault),
    }
}

// The number of the kind.
fn kind_of(fault: &Fault) -> u8
    ensures { result ≡ kind_of fault.now }
{
    match fault {
        Fault::InvalidIterator(_) => INVALID_ITERATOR,
        Fault::EndIterator => END_ITERATOR,
    }
}

// The sites that may have invalidated.
fn killers_in(fault: &Fault) -> Kills
    requires { Ascend (killers_in fault.now) }
    ensures { sites_in result ≡ killers_in fault.now }
{
    match fault {
        Fault::InvalidIterator(killers) => set_of(killers.as_slice()),
        Fault::EndIterator => Kills::empty(),
    }
}

// The set of these sites.
fn set_of(sites: &[Site]) -> Kills
    requires { Ascend sites.now }
    ensures { sites_in result ≡ sites.now }
{
    let mut kills = Kills::empty();
    for site in sites {
        kills = kills.with(*site);
    }
    kills
}
