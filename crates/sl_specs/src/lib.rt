//! The tables of the library: which calls there are, what each takes, gives and needs, and what it invalidates.
#![tactic(auto)]

mod call;
mod class;
mod entry;
mod laws;
mod letter;
mod lib_row;
mod look_up;
mod need;
mod needs;
mod printing;
mod return_type;
pub mod rows;
mod table;

pub use call::Call;
pub use class::Class;
pub use entry::{Entry, Signature};
pub use laws::{numbers_are_places, rows_differ};
pub use letter::Letter;
pub use lib_row::LibRow;
pub use look_up::{row, row_at, signature};
pub use need::Need;
pub use needs::Needs;
pub use printing::print_rows;
pub use return_type::ReturnType;
pub use table::entries;
