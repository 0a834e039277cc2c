//! The parts that texts in the syntax of TPTP are made of: names, sorts, variables, numerals, types, and what stands before
//! the body of a statement. Each call appends to one buffer that grows, and has no error but want of memory; what the buffer
//! held stays at its front even then.
#![tactic(auto)]

mod bytes;
mod front;
mod name;
mod typing;

pub use bytes::{put, put_between, write_numeral, write_variable};
pub use front::write_front;
pub use name::{write_name, write_name_bytes, write_sort};
pub use typing::write_typing;
