//! Runs worked cases, from files and words to a status and two texts, and prints one line for each. The cases stand in
//! the files that the arguments name, in the folder where the program runs; `data/` has them, and `reader.rt` says how
//! they are written.
#![tactic(auto)]

mod case;
mod reader;
mod run;
mod wanted;

use crate::reader::Reader;
use nxf_base::Memory;
use std::{env, fs};

fn main(rt: HostRuntime) {
    if run_files(&rt).is_err() {
        let _ = println!(rt; "no memory");
    }
}

// Runs the cases of each file that the arguments name.
fn run_files(rt: &HostRuntime) -> Result<(), Memory> {
    let Ok(names) = env::args(rt) else {
        return Err(Memory);
    };
    for name in names.skip(1) {
        match fs::read_to_string(rt, name.as_str()) {
            Ok(text) => run_cases(rt, text.as_str())?,
            Err(_) => say(rt, name.as_str(), "no such file of cases")?,
        }
    }
    Ok(())
}

// Runs the cases of one file.
fn run_cases(rt: &HostRuntime, text: &str) -> Result<(), Memory> {
    let mut open: Option<Reader> = None;
    for line in text.lines() {
        if let Some(name) = line.strip_prefix("== case ") {
            close(rt, open)?;
            open = Some(Reader::new(rt.alloc(), name)?);
        } else if let Some(reader) = &mut open {
            reader.take(rt, line)?;
        }
    }
    close(rt, open)
}

// Runs the case that was read, if there is one.
fn close(rt: &HostRuntime, open: Option<Reader>) -> Result<(), Memory> {
    let Some(reader) = open else {
        return Ok(());
    };
    let case = reader.finish()?;
    let name = case.name.clone()?;
    let verdict = run::verdict(rt.alloc(), case)?;
    say(rt, name.as_str(), verdict.as_str())
}

fn say(rt: &HostRuntime, name: &str, verdict: &str) -> Result<(), Memory> {
    println!(rt; "{name}: {verdict}").map_err(|_| Memory)
}
