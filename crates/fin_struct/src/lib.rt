//! Finite structures over a signature: classical and Kripke structures, whose tables stand in one flat list of cells, and
//! the conditions on them. Contracts see the cells by row, and the lists of rows of the definitions.
#![tactic(auto)]

mod condition;
mod grid;
mod kripke;
mod kripke_tables;
mod limits;
mod places;
mod rows;
mod shapes;
mod structure;

pub use classical_signatures::classical;
pub use condition::Condition;
pub use grid::{Grid, GridShape};
pub use kripke::Kripke;
pub use limits::{ShapeError, cells};
pub use rows::Rows;
pub use structure::Structure;
