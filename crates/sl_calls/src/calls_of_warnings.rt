//! Each public call of sl_warnings: the text of a report of warnings that were added in another order.

ghost use Rattle.std.specs.Prelude.{◌<◌, ◌≤◌, length};
ghost use Rattle.sl_base.specs.declared.limits.TheConstants.{NAME_BYTES, SITES};

use crate::expected::{expect_bytes, expect_that};
use sl_base::{Name, Place, Site};
use sl_kind::Kills;
use sl_warnings::{Report, Warning, render};
use std::alloc::AllocError;

// A warning at a place in line 7 or 9, that no site has caused so far.
fn warning(line: u32, kind: u8, call: &[u8], argument: u8) -> Warning
    requires some { 0 < length call.now }
    requires short { length call.now ≤ NAME_BYTES }
{
    Warning {
        place: Place { line, col: 5 },
        kind,
        call: Name::new(call),
        argument,
        name: Some(Name::new(b"it")),
        killers: Kills::empty(),
    }
}

// Adds a site to those that have caused a warning.
fn blame(warning: &mut Warning, site: u16)
    requires { site < SITES }
{
    warning.join(&Kills::empty().with(Site::new(site)));
}

// Adds a warning that a site has caused.
fn add_blamed(
    report: &mut Report,
    line: u32,
    kind: u8,
    call: &[u8],
    argument: u8,
    site: u16,
) -> Result<(), AllocError>
    requires some { 0 < length call.now }
    requires short { length call.now ≤ NAME_BYTES }
    requires site { site < SITES }
{
    let mut added = warning(line, kind, call, argument);
    blame(&mut added, site);
    report.add(added)
}

// Adds a warning of an argument that has no name.
fn add_unnamed(report: &mut Report) -> Result<(), AllocError> {
    report.add(Warning {
        place: Place { line: 7, col: 2 },
        kind: 5,
        call: Name::new(b"[]"),
        argument: 1,
        name: None,
        killers: Kills::empty(),
    })
}

/// The places of the sites.
const SITES_AT: [Place; 3] = [
    Place { line: 3, col: 1 },
    Place { line: 4, col: 2 },
    Place { line: 5, col: 3 },
];

const LINES: &str = "a.cpp:7:2: out of range in []: argument 1
a.cpp:7:5: invalid iterator in *: it, invalidated at 3:1, 5:3
a.cpp:7:5: end iterator in *: it
a.cpp:9:5: end iterator in for: end of it
a.cpp: warnings: 4
";

#[test]
fn reports_of_warnings(rt: HostRuntime) {
    let mut report = Report::new(rt.alloc());
    add_blamed(&mut report, 9, 4, b"for", 2, 0).expect(&rt, "a first warning");
    report
        .add(warning(7, 4, b"*", 1))
        .expect(&rt, "one before it");
    add_blamed(&mut report, 7, 1, b"*", 1, 2).expect(&rt, "one of another kind");
    add_blamed(&mut report, 7, 1, b"*", 1, 0).expect(&rt, "the same with another site");
    add_unnamed(&mut report).expect(&rt, "one without a name");
    expect_that(&rt, "four warnings", report.len() == 4);
    expect_that(&rt, "the last warning", report.get(3).is_some());
    expect_that(&rt, "nothing behind it", report.get(4).is_none());
    let text = render(rt.alloc(), "a.cpp", &SITES_AT, &report).expect(&rt, "a text");
    expect_bytes(&rt, text.as_slice(), LINES.as_bytes());
    let mut joined = warning(7, 1, b"*", 1);
    blame(&mut joined, 2);
    expect_that(&rt, "the site", joined.killers.has(Site::new(2)));
    expect_that(&rt, "its column", joined.spot().col == 5);
}
