//! The conditions on which elements exist at which worlds, as axioms of classical logic. There is no other error than want
//! of memory.
#![tactic(auto)]

mod existence;
mod faults;

pub use condition_axioms::domains::axioms;
pub use faults::first_fault;
