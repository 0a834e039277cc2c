//! The roles of a file: which of its statements are premises and which is the conjecture, and where each counts, or the
//! first role that is refused.
#![tactic(auto)]

mod parts;
mod sorting;
mod words;

pub use nxf_tree::{Part, PartEntry, Scope};
pub use parts::Parts;
pub use sorting::{RoleError, sort_roles};
