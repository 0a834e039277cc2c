//! The formulas of a classical file with numbers in place of names, kept as cells, each under the word of its role.
#![tactic(auto)]

mod copies;
mod formulas;
mod levels;
mod prepared;
mod problem;
mod terms;

pub use prepared::Prepared;
pub use problem::prepare;
