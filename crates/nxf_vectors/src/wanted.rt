// What is wanted of an output, and how the output takes it.
use nxf_base::{Memory, MemorySink};
use std::alloc::Global;

/// Where a wanted text stands in the output: it is all of it, or stands anywhere, at its front, at its end or nowhere.
#[derive(Clone, Copy)]
pub enum Extent {
    Whole,
    Has,
    Begins,
    Ends,
    Lacks,
}

/// An output: the texts that are wanted, how many bytes it takes at a time, and the write that fails, if one does.
#[derive(Drop)]
pub struct Wanted {
    texts: Vec<(Extent, Vec<u8>)>,
    pub piece: u32,
    pub fails_at: Option<u64>,
}

impl Wanted {
    /// An output that takes all, and of which nothing is wanted yet.
    pub fn new(alloc: Global) -> Wanted {
        Wanted {
            texts: Vec::new(alloc),
            piece: u32::MAX,
            fails_at: None,
        }
    }

    pub fn want(&mut self, extent: Extent, text: Vec<u8>) -> Result<(), Memory> {
        self.texts.push((extent, text))?;
        Ok(())
    }

    /// An empty output of this kind.
    pub fn sink(&self, alloc: Global) -> Result<MemorySink, Memory> {
        let mut sink = MemorySink::new(alloc, self.piece.max(1));
        if let Some(write) = self.fails_at {
            sink.fail_at(write)?;
        }
        Ok(sink)
    }

    /// Whether these bytes are what is wanted: nothing, where no text is.
    pub fn is_met(&self, bytes: &[u8]) -> bool {
        if self.texts.is_empty() {
            return bytes.is_empty();
        }
        for (extent, text) in &self.texts {
            if !stands(*extent, text, bytes) {
                return false;
            }
        }
        true
    }
}

fn stands(extent: Extent, text: &[u8], bytes: &[u8]) -> bool {
    match extent {
        Extent::Whole => bytes == text,
        Extent::Begins => bytes.starts_with(text),
        Extent::Ends => bytes.ends_with(text),
        Extent::Has => has_part(bytes, text),
        Extent::Lacks => !has_part(bytes, text),
    }
}

fn has_part(bytes: &[u8], part: &[u8]) -> bool {
    for at in 0..bytes.len() {
        if bytes[at..].starts_with(part) {
            return true;
        }
    }
    false
}
