//! Where a problem's files come from: a list of libraries that are asked in order, the bytes of one file, and the file that
//! is gathered from a problem's file and all that it includes.
#![tactic(auto)]

mod gather_error;
mod gathering;
mod loading;
mod reading;
mod roots;
mod selection;

pub use gathering::{gather, gather_from};
pub use loading::{load_one, load_one_from};
pub use roots::{Roots, load_first};
pub use syntax_definitions::GatherError;
