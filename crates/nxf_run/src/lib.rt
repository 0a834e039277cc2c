//! The program's work: the words and the files in, the text or the line of a refusal out.
#![tactic(auto)]

mod message;
mod output;
mod prepare;
mod top_call;
mod words;

pub use top_call::{one_answer, run, run_over};
