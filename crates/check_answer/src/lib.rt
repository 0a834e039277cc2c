//! The answer to `check`: whether the structure of a Kripke text is a countermodel of a problem. And what other answers to a second
//! file share with it: the tokens of the file, and the judgement of its structure.
#![tactic(auto)]

mod check;
mod faults;
mod judging;
mod structure;
mod tokens;

pub use check::check_text;
pub use faults::not_countermodel;
pub use judging::judge;
pub use structure::read_structure;
pub use tokens::tokens_of;
