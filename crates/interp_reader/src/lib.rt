//! Reads an interpretation: the structure that its closures, declarations and rows give, or why they give none.
#![tactic(auto)]

mod fill;
mod own;
mod places;
mod reader;
mod sizes;
mod table;

pub use reader::read;
