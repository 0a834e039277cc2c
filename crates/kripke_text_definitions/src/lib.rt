//! What the text of a Kripke structure is, which token lists are such texts, and why each other list is refused.
#![tactic(auto)]

mod error;

pub use error::KripkeTextError;
