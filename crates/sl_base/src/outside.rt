//! The outside: files that are read and a sink that is written to, in memory and real.

pub mod blame;
pub mod files;
pub mod mem_files;
pub mod mem_sink;
pub mod reading;
pub mod real_files;
pub mod sink;
pub mod std_sink;
pub mod writing;
