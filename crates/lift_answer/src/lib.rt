//! The answer to `lift`: the Kripke text of the countermodel that an interpretation gives.
#![tactic(auto)]

mod interpretation;
mod lift;

pub use interpretation::read_interpretation;
pub use lift::lift_text;
