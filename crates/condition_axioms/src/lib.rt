//! The conditions on structures as axioms of classical logic: those on the relations of indexes, on who exists where, and on
//! the values of functions. There is no other error than want of memory.
#![tactic(auto)]

pub mod designation;
pub mod domains;
pub mod frames;
mod schemes;
mod sorts;
mod term_axiom;
