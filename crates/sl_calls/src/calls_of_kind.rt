//! Each public call of sl_kind.

use crate::expected::expect_that;
use sl_base::Site;
use sl_kind::Kills;

#[test]
fn calls_of_kind(rt: HostRuntime) {
    let first = Site::new(0);
    let last = Site::new(4_095);
    let none = Kills::empty();
    expect_that(&rt, "no site in the empty set", !none.has(first));
    let one = none.with(first);
    expect_that(&rt, "the first site", one.has(first));
    expect_that(&rt, "the first site alone", !one.has(last));
    let both = one.union(&none.with(last));
    expect_that(&rt, "both sites", both.has(first) & both.has(last));
    expect_that(&rt, "no third site", !both.has(Site::new(64)));
}
