//! What the letters of a row stand for, and which operands they take.

mod counts;
mod letter;
mod operands;
mod several;

pub use counts::{takes_count, takes_list};
pub use letter::{seen_letter, width};
pub use operands::{first_type, last_type};
pub use several::{
    ends_in_output, letters_are_weak, letters_take, letters_write_const, some_written,
};
