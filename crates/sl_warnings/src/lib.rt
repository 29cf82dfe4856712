//! Warnings, the report that keeps them in order, and its text.
#![tactic(auto)]

mod killers;
mod laws;
mod rendering;
mod report;
mod spot;
mod warning;

pub use laws::{covers_more, stays_ascending, tells_its_sites};
pub use rendering::render;
pub use report::Report;
pub use warning::Warning;
