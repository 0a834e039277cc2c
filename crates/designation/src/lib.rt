//! The conditions on the values of functions, as axioms of classical logic. There is no other error than want of memory.
#![tactic(auto)]

mod faults;
mod values;

pub use condition_axioms::designation::axioms;
pub use faults::first_fault;
