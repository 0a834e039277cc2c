//! Formulas with numbers for names, as clauses speak of them. The program keeps such formulas as cells, and makes no value of
//! these types.
#![tactic(auto)]

mod node;

pub use node::{NTerm, Node, Numbered};
