//! The names of a file: what its type statements declare, what occurs in its formulas, and the signature with a number for
//! each name.
#![tactic(auto)]

mod declarations;
mod names;
mod occurring;
mod places;
mod signature;
mod symbol_type;
mod tables;

pub use declarations::Declarations;
pub use names::Names;
pub use symbol_type::SymbolType;
