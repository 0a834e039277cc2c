//! The files of a folder.
ghost use Rattle.std.specs.Prelude.{◌<◌, ◌^◌, None};
ghost use Rattle.nxf_base.specs.Load.{Loads};

use crate::read::{ReadError, read_up_to};
use nxf_base::{Found, Library, LoadError, Text};
use std::alloc::Global;
use std::path::Path;
use std::rt::Files;
use std::{fs, io};

/// The files of a folder, whose names are paths from there. It does not tell their bytes.
#[derive(Drop)]
pub struct DirLibrary<R: Files> {
    rt: R,
    alloc: Global,
    folder: String,
    faults: u64,
    misses: u64,
}

impl<R: Files> DirLibrary<R> {
    pub fn new(rt: R, alloc: Global, folder: String) -> Self {
        DirLibrary {
            rt,
            alloc,
            folder,
            faults: 0,
            misses: 0,
        }
    }
}

impl<R: Files + Drop> Library for DirLibrary<R> {
    ghost use Rattle.std.specs.Prelude.{None};

    ghost shelf = { λ library. record { files = None; faults = library.faults; misses = library.misses } };

    fn load(&mut self, name: &Text, limit: u64, into: &mut Vec<u8>) -> Result<Found, LoadError> {
        match load_file(&self.rt, self.alloc, &self.folder, name, limit, into) {
            Ok(Found::Here) => Ok(Found::Here),
            Ok(Found::Absent) => {
                self.misses = self.misses.saturating_add(1);
                Ok(Found::Absent)
            }
            Err(LoadError::Fault) => {
                self.faults = self.faults.saturating_add(1);
                Err(LoadError::Fault)
            }
            Err(LoadError::Memory) => Err(LoadError::Memory),
        }
    }

    fn faults(&self) -> u64 {
        self.faults
    }

    fn misses(&self) -> u64 {
        self.misses
    }
}

// The bytes of a file of the folder. Only a file that isn't found is absent; any other failure is a fault.
fn load_file<R: Files>(
    rt: &R,
    alloc: Global,
    folder: &str,
    name: &Text,
    limit: u64,
    into: &mut Vec<u8>,
) -> Result<Found, LoadError>
    requires { limit < 2 ^ 32 }
    ensures { Loads None name.now limit result into.old.items into.new.items }
{
    let Ok(name) = str::from_utf8(name.bytes()) else {
        return Err(LoadError::Fault);
    };
    let Ok(path) = Path::new(folder).join(alloc, name) else {
        return Err(LoadError::Memory);
    };
    match fs::open(rt, path.as_path()) {
        Ok(mut file) => match read_up_to(&mut file, limit, into) {
            Ok(()) => Ok(Found::Here),
            Err(ReadError::Failed) => Err(LoadError::Fault),
            Err(ReadError::Memory) => Err(LoadError::Memory),
        },
        Err(error) => {
            if error.kind() == io::ErrorKind::NotFound {
                Ok(Found::Absent)
            } else {
                Err(LoadError::Fault)
            }
        }
    }
}
