// Words and outcomes of runs.
use nxf_base::{List, MemoryLibrary, Text};
use std::alloc::Global;
use std::test::Fail;

/// The status in decimal, what the run wrote to `out`, and what it wrote to `err`.
pub fn summary(alloc: Global, code: u8, out: &[u8], err: &[u8]) -> Result<Vec<u8>, Fail> {
    let mut all = Vec::new(alloc);
    if code >= 10 {
        all.push(b'0' + code / 10 % 10)?;
    }
    all.push(b'0' + code % 10)?;
    all.push(b'|')?;
    all.extend_from_slice(out)?;
    all.push(b'|')?;
    all.extend_from_slice(err)?;
    Ok(all)
}

/// The words `embed -`.
pub fn embed_stdin(alloc: Global) -> Result<List<Text>, Fail> {
    let mut words = List::new(alloc);
    words.push(Text::from_bytes(alloc, b"embed")?)?;
    words.push(Text::from_bytes(alloc, b"-")?)?;
    Ok(words)
}

/// A library of these files.
pub fn library_of(alloc: Global, files: &[(&str, &str)]) -> Result<MemoryLibrary, Fail> {
    let mut library = MemoryLibrary::new(alloc);
    for (name, text) in files {
        library.add(Text::from_bytes(alloc, name.as_bytes())?, text.as_bytes())?;
    }
    Ok(library)
}
