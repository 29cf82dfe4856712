//! Laws of reports that the crates above use.
ghost use Rattle.std.specs.Prelude.{◌≡◌, ◌↔◌, ℕ, true, List, Contains};
ghost use Rattle.sl_kind.specs.declared.kills.Kills.{Kills};
ghost use Rattle.sl_kind.specs.Kills.{has};
ghost use Rattle.sl_model.specs.Runs.Ends.{Trap};
ghost use Rattle.sl_model.specs.Reports.Covers.{Warning, Tells, Covers};
ghost use Rattle.sl_warnings.specs.Reports.{IsAscending, Agrees, added};
ghost use Rattle.sl_warnings.specs.Views.{sites_in};

/// A report in order is in order after one warning more.
pub fn stays_ascending()
    ensures { (w : Warning) (ws : List Warning) → IsAscending ws → IsAscending (added w ws) }
{}

/// A report that covers a trap covers it after any warning more. Then it also covers each trap that this warning tells
/// of, where a warning that was there with its place, kind and argument is of the same call and name.
pub fn covers_more()
    ensures old { (names : List (List ℕ)) (w : Warning) (ws : List Warning) (t : Trap) →
        Covers names ws t → Covers names (added w ws) t }
    ensures new { (names : List (List ℕ)) (w : Warning) (ws : List Warning) (t : Trap) →
        Agrees w ws → Tells names w t → Covers names (added w ws) t }
{}

/// The killers that a warning tells are the sites of its set.
pub fn tells_its_sites()
    ensures { (k : Kills) (site : ℕ) → (has k site ≡ true) ↔ Contains (sites_in k) site }
{}
