//! Truth of formulas in a finite Kripke structure, and the first premise or conjecture that keeps it from being a countermodel.
//! No call but the one that makes an evaluator takes memory.
#![tactic(auto)]

mod evaluator;
mod faults;
mod formulas;
mod here;
mod terms;

pub use evaluator::Eval;
