// The run of a case.
use crate::case::Case;
use nxf_base::{Memory, MemoryLibrary, MemorySink, Status};
use nxf_run::run_over;
use std::alloc::Global;

/// `ok`, or what differs first.
pub fn verdict(alloc: Global, mut case: Case) -> Result<String, Memory> {
    if let Some(line) = &case.unknown {
        return Ok(format!(in alloc; "unknown line: {line}")?);
    }
    let mut out = case.out.sink(alloc)?;
    let mut err = case.err.sink(alloc)?;
    let status = run_over(alloc, &case.words, &mut case.libraries, &mut out, &mut err);
    let (code, wanted) = (status.code(), case.status);
    if code != wanted {
        return Ok(format!(in alloc; "status {code} in place of {wanted}")?);
    }
    let differs = if !case.out.is_met(out.bytes()) {
        "output differs"
    } else if !case.err.is_met(err.bytes()) {
        "line differs"
    } else {
        "ok"
    };
    Ok(differs.to_string(alloc)?)
}
