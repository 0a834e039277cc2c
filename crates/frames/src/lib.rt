//! The conditions on the relations of a problem's indexes, as axioms of classical logic. There is no other error than want
//! of memory.
#![tactic(auto)]

mod faults;
mod relations;

pub use condition_axioms::frames::axioms;
pub use faults::first_fault;
