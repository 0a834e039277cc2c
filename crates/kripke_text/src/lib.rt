//! Prints the text of a Kripke structure, and reads it.
#![tactic(auto)]

mod columns;
mod head;
mod matcher;
mod number;
mod object;
mod page;
mod pieces;
mod printer;
mod read_head;
mod read_table;
mod reader;
mod statements;
mod subject;
mod table;
mod taker;

pub use printer::print;
pub use reader::read;
