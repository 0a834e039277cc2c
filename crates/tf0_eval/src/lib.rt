//! Truth of the formulas of a classical file in a finite structure, and the first formula that keeps it from being a
//! countermodel. No call but the one that makes an evaluator takes memory.
#![tactic(auto)]

mod evaluator;
mod faults;
mod formulas;
mod here;
mod terms;

pub use classical_numbering::{Prepared, prepare};
pub use evaluator::Eval;
