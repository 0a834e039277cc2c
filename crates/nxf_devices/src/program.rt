//! The top call over the real devices.
ghost use Rattle.std.specs.Prelude.{IfOk};
ghost use Rattle.nxf_devices.specs.Devices.{MayEndOverDevices};

use crate::dir_library::DirLibrary;
use crate::std_sink::{StdSink, Stream};
use crate::stdin_library::StdinLibrary;
use crate::words::read_words;
use nxf_base::{BoxedLibrary, Memory, Status};
use nxf_include::Roots;
use nxf_run::run;
use std::env;
use std::env::VarError;

/// Runs the program over the real devices: the words after its name; as libraries standard input, the working folder, and
/// the folder that the variable `TPTP` names, in this order; and the two standard outputs. An error is want of memory
/// before the run.
pub fn start(rt: HostRuntime) -> Result<Status, Memory>
    ensures { IfOk result MayEndOverDevices }
{
    let alloc = rt.alloc();
    let words = read_words(&rt, alloc)?;
    let mut roots = Roots::new(alloc);
    let stdin: BoxedLibrary = Box::new(alloc, StdinLibrary::new(rt.clone()?))?;
    roots.push(stdin)?;
    let here: BoxedLibrary = Box::new(
        alloc,
        DirLibrary::new(rt.clone()?, alloc, String::new(alloc)),
    )?;
    roots.push(here)?;
    match env::var(&rt, "TPTP") {
        Ok(folder) => {
            let there: BoxedLibrary = Box::new(alloc, DirLibrary::new(rt.clone()?, alloc, folder))?;
            roots.push(there)?;
        }
        Err(VarError::OutOfMemory) => return Err(Memory),
        Err(_) => {}
    }
    let mut out = StdSink::new(rt.clone()?, Stream::Out);
    let mut err = StdSink::new(rt, Stream::Err);
    Ok(run(alloc, &words, &mut roots, &mut out, &mut err))
}
