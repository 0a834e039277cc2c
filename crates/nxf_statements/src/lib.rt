//! Reads statements: typings, logic specifications, annotations, includes and formulas with their roles.
#![tactic(auto)]

mod annotations;
mod logics;
mod statements;
mod typings;

pub use annotations::annotation;
pub use logics::logic;
pub use statements::statement;
pub use typings::typing;
