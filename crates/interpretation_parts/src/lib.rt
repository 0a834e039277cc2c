//! The parts of an interpretation: what each says, what the whole file lists and declares, and whether a part has a fault.
#![tactic(auto)]

mod argument;
mod closures;
mod context;
mod declarations;
mod disequations;
mod items;
mod judge;
mod judging;
mod key;
mod known;
mod note;
mod reading;

pub use closures::Closures;
pub use context::{Context, Said, said_by};
pub use items::{Item, items_of};
pub use judging::judge_items;
pub use key::Key;
pub use known::Known;
