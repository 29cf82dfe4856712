//! A row that was found.
ghost use Rattle.std.specs.Prelude.{◌≡◌, option_map};
ghost use Rattle.sl_specs.specs.Table.{table};
ghost use Rattle.sl_candidates.specs.Found.{found_of};
ghost use Rattle.sl_candidates.specs.Means.Places.{found_at};

use sl_specs::{Entry, entries};

/// A row of the table with its number, which is its place, from 0.
#[derive(Clone, Copy)]
pub struct FoundRow {
    pub number: u16,
    pub entry: Entry,
}

// The row at a place, if there is one.
pub fn found(place: Option<usize>) -> Option<FoundRow>
    ensures { option_map found_of result ≡ found_at table place }
{
    match place {
        Some(number) => found_there(number),
        None => None,
    }
}

fn found_there(number: usize) -> Option<FoundRow>
    ensures { option_map found_of result ≡ found_at table (Some number) }
{
    match entries().get(number) {
        Some(entry) => Some(FoundRow {
            number: number as u16,
            entry: *entry,
        }),
        None => None,
    }
}
