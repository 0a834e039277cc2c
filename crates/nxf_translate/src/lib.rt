//! The standard relational translation of checked formulas: a formula with numbers for names becomes a formula of the
//! printed problem, about a world. There is no other error than want of memory.
#![tactic(auto)]

mod formulas;
mod place;
mod terms;

pub use formulas::translate_closed;
pub use place::Place;
