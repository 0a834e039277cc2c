//! The sort check: names in a file's formulas become numbers of its signature, or the first fault of its sorts is named.
#![tactic(auto)]

mod binders;
mod error;
mod fault;
mod formula;
mod number;
mod overrides;
mod sort_check;
mod statements;
mod typing;

pub use error::SortError;
pub use formula_cells::{Cell, Checked, Span};
pub use sort_check::check;
