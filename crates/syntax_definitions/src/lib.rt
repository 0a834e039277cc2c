//! What a text spells, and which file is gathered: the grammar, levels, and includes.
#![tactic(auto)]

mod gather_error;
mod keyword;
mod visited;

pub use gather_error::GatherError;
pub use keyword::Keyword;
pub use visited::Visited;
