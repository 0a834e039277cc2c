//! Formulas with numbers for names, in one vector of cells. A cell names its parts by their numbers among the cells before
//! it, and each name is kept once. Contracts see the formulas that the cells stand for.
#![tactic(auto)]

mod cell;
mod cells;
mod checked;
mod putting;
mod root;

pub use cell::{Cell, Span};
pub use cells::Cells;
pub use checked::Checked;
