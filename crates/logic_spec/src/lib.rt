//! What the logic statement of a file asks of sorts, functions and indexes.
#![tactic(auto)]

mod error;
mod judge;
mod keys;
mod overrides;
mod read;
mod seen;
mod spec;
mod words;

pub use error::SpecError;
pub use nxf_tree::Override;
pub use read::read_spec;
pub use spec::Spec;
