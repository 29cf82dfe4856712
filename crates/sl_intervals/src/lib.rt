//! Intervals of numbers with their operators, and facts on numbers and sizes. No call takes memory.
#![tactic(auto)]

mod comparison;
mod conversion;
mod division_faults;
mod interval;
mod lattice;
mod numbers;
mod outcome;
mod products;
mod quotients;
mod remainders;
mod settling;
mod size_fact;
mod size_facts;
mod stops;
mod sums;
mod sure;
mod widening;

pub use comparison::less;
pub use conversion::convert;
pub use interval::Interval;
pub use lattice::{join, meet};
pub use outcome::Outcome;
pub use products::mul;
pub use quotients::div;
pub use remainders::rem;
pub use size_fact::SizeFact;
pub use size_facts::SizeFacts;
pub use sums::{add, sub};
pub use sure::Sure;
pub use widening::widen;
