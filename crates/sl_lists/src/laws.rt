//! Laws of lists that a reviewer would ask for.
ghost use Rattle.sl_model.specs.Reports.Lists.{int_of, pick_of};
ghost use Rattle.sl_lists.specs.Decided.{IsDecided};

/// Bytes hold one list of ints, or are bad as such at one offset, and never both; and so for the numbers of a schedule.
pub fn list_or_fault()
    ensures input { IsDecided int_of }
    ensures schedule { IsDecided pick_of }
{}
