//! What an interpretation says, statement by statement; which structure it gives, and why another one is refused.
#![tactic(auto)]

mod element;
mod error;
mod fault;

pub use element::Element;
pub use error::InterpError;
pub use fault::PartFault;
