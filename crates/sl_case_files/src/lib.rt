//! Cases as data: reads case files, runs each case, and reports those whose answer isn't the one that is due.
#![tactic(auto)]

mod case;
mod case_file;
mod kinds;
mod report;
mod section;

pub use case_file::{CaseFileErr, Wrong};
pub use kinds::word_text;
pub use report::{Report, report_on};
