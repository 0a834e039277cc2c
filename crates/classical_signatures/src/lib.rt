//! The classical signature of a signature: the sorts and the tables of the printed problem.
#![tactic(auto)]

mod classical_signature;

pub use classical_signature::{classical, takes_world};
