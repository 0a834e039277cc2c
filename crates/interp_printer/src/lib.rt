//! Prints the interpretation of a finite classical structure: statement by statement into one buffer, row by row.
#![tactic(auto)]

mod names;
mod printer;
mod sorts;
mod tables;
mod types;

pub use printer::print;
