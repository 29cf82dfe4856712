//! A list, and cells that are to describe it.
ghost use Rattle.sl_cells.specs.Windows.{IsOfInts};

use crate::list::List;
use sl_cells::Cells;

/// A list; its cells; whether they have to know each element as single numbers; and whether they have to know that the
/// keys ascend.
#[derive(Drop)]
pub struct Subject<const N: usize> {
    pub cells: Cells<N>,
    pub list: List,
    pub known: bool,
    pub ascends: bool,
}

/// Without an element.
pub fn empty<const N: usize>() -> Subject<N>
    ensures { IsOfInts result.cells }
{
    Subject {
        cells: Cells::empty(),
        list: List::new(),
        known: true,
        ascends: true,
    }
}
