// A worked case.
use crate::wanted::Wanted;
use nxf_base::{List, Memory, MemoryLibrary, Text};
use std::alloc::Global;

/// Words and libraries, and the status and the outputs that are wanted.
#[derive(Drop)]
pub struct Case {
    pub name: String,
    pub words: List<Text>,
    pub libraries: Vec<MemoryLibrary>,
    pub status: u8,
    pub out: Wanted,
    pub err: Wanted,
    /// The first line that says nothing that is known here.
    pub unknown: Option<String>,
}

impl Case {
    /// A case without words, over one empty library, of which status 0 is wanted.
    pub fn new(alloc: Global, name: &str) -> Result<Case, Memory> {
        let mut libraries = Vec::new(alloc);
        libraries.push(MemoryLibrary::new(alloc))?;
        Ok(Case {
            name: name.to_string(alloc)?,
            words: List::new(alloc),
            libraries,
            status: 0,
            out: Wanted::new(alloc),
            err: Wanted::new(alloc),
            unknown: None,
        })
    }
}
