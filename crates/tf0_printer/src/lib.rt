//! The text of a file in the syntax of TPTP, a line for each statement. One buffer grows; no part has a text of its own.
#![tactic(auto)]

mod formula;
mod name;
mod statement;
mod term;

pub use name::print_name;
pub use statement::print_file;
