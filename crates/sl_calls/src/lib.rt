//! Tests of what no case file can say: each public call of each crate, once, where it succeeds; reads, writes and
//! rooms that fail; texts of over a megabyte; case files that are wrong, and cases that differ.
//!
//! It has nothing but tests, so that no crate with code in it is proved twice.
#![tactic(auto)]

#[cfg(test)]
mod calls_of_base;
#[cfg(test)]
mod calls_of_cells;
#[cfg(test)]
mod calls_of_expressions;
#[cfg(test)]
mod calls_of_grammar;
#[cfg(test)]
mod calls_of_intervals;
#[cfg(test)]
mod calls_of_kind;
#[cfg(test)]
mod calls_of_laws;
#[cfg(test)]
mod calls_of_lexer;
#[cfg(test)]
mod calls_of_parser;
#[cfg(test)]
mod calls_of_runs;
#[cfg(test)]
mod calls_of_specs;
#[cfg(test)]
mod calls_of_syntax;
#[cfg(test)]
mod calls_of_tool;
#[cfg(test)]
mod calls_of_types;
#[cfg(test)]
mod calls_of_warnings;
#[cfg(test)]
mod cases;
#[cfg(test)]
mod expected;
#[cfg(test)]
mod given;
#[cfg(test)]
mod outside;
