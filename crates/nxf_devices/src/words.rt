//! The words after the name of the program.

use nxf_base::{List, Memory, Text};
use std::alloc::Global;
use std::env::{Env, FillError};

/// The words after the program's name. One that is not UTF-8 is the empty word, which no command takes.
pub fn read_words<R: Env>(rt: &R, alloc: Global) -> Result<List<Text>, Memory> {
    let mut words = List::new(alloc);
    for at in 1..usize::MAX {
        let Some(word) = read_word(rt, alloc, at)? else {
            return Ok(words);
        };
        let is_text = str::from_utf8(&word).is_ok();
        let text = Text::from_bytes(alloc, if is_text { &word } else { &[] })?;
        if words.push(text).is_err() {
            return Err(Memory);
        }
    }
    Ok(words)
}

// One word's bytes, or none past the last. The buffer grows up to more than a system can hand over.
fn read_word<R: Env>(rt: &R, alloc: Global, at: usize) -> Result<Option<Vec<u8>>, Memory> {
    let mut buffer = vec![in alloc; 0u8; 256]?;
    for _ in 0..56 {
        match rt.arg(at, &mut buffer) {
            Ok(count) => {
                buffer.truncate(count);
                return Ok(Some(buffer));
            }
            Err(FillError::NotPresent) => return Ok(None),
            Err(FillError::TooLong) => {
                let larger = buffer.len().saturating_mul(2);
                buffer.resize(larger, 0)?;
            }
        }
    }
    Err(Memory)
}
