//! The real devices: files of folders, standard input and the two standard outputs; and the top call over them.
#![tactic(auto)]

mod dir_library;
mod program;
mod read;
mod std_sink;
mod stdin_library;
mod words;

pub use program::start;
