// The text of the end of a run: what it wrote, and how it ended.
#![tactic(auto)]

mod end_line;
mod output;
mod text;
mod trap;

pub use text::end_text;
