//! Reads a file from its tokens: problems of modal logic, classical problems, and finite interpretations, in the
//! syntax of TPTP.
#![tactic(auto)]

mod file;

pub use file::read_file;
pub use nxf_terminals::{GrammarError, Profile};
