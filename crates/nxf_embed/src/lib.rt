//! The translation of a modal problem into a classical one, whose countermodels are those of the problem: the standard
//! relational translation, in which worlds are elements of a sort of their own. There is no other error than want of
//! memory.
#![tactic(auto)]

mod added;
mod chosen;
mod declare;
mod whole;

pub use declare::declarations;
pub use whole::embed;
