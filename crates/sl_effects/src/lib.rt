//! What a call of the library does to the store of a machine, with the picks that are left: edits, changes, exchanges,
//! elements and keys that come one by one, and new containers. Each call here carries out one kind of effect of a row.
#![tactic(auto)]

mod adding;
mod appending;
mod carrying;
mod effect;
mod inserting;
mod keys;
mod making;
mod new_keys;
mod picks;
mod rebuilding;
mod rooms;
mod scattering;
mod steps;

pub use appending::{append_all, insertion_class};
pub use carrying::carry_out;
pub use effect::Effect;
pub use inserting::insert_all;
pub use keys::known_place;
pub use making::{make, make_by_keys};
pub use new_keys::{key_picks, key_place, key_room};
pub use picks::Picks;
pub use rooms::{grown_picks, grown_room, sequence_picks, sequence_room};
pub use scattering::scatter;
pub use steps::{carry_change, carry_edit, carry_trade};
