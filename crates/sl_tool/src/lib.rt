// The tool: from the words of a command to what it writes and how it ends.
#![tactic(auto)]

mod analysis;
mod checking;
mod command;
mod laws;
mod phases;
mod reading;
mod refusal;
mod reporting;
mod status;
mod tool;

pub use laws::{
    each_text_is_reported, each_text_is_scoped, one_refusal, one_typing, typed_or_refused,
};
pub use phases::stop::Stop;
pub use phases::{Parsed, parsed_text, typed_text};
pub use status::Status;
pub use tool::run_tool;
