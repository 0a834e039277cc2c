//! Standard input, as a file that can be loaded once.

use crate::read::{ReadError, read_up_to};
use nxf_base::{Found, Library, LoadError, Text};

/// Standard input as the file `-`, which is there once. It does not tell its bytes.
#[derive(Drop)]
pub struct StdinLibrary {
    rt: HostRuntime,
    taken: bool,
    faults: u64,
    misses: u64,
}

impl StdinLibrary {
    pub fn new(rt: HostRuntime) -> Self {
        StdinLibrary {
            rt,
            taken: false,
            faults: 0,
            misses: 0,
        }
    }
}

impl Library for StdinLibrary {
    ghost use Rattle.std.specs.Prelude.{None};

    ghost shelf = { λ library. record { files = None; faults = library.faults; misses = library.misses } };

    fn load(&mut self, name: &Text, limit: u64, into: &mut Vec<u8>) -> Result<Found, LoadError> {
        if self.taken || name.bytes() != b"-".as_slice() {
            self.misses = self.misses.saturating_add(1);
            return Ok(Found::Absent);
        }
        match read_up_to(&mut self.rt.reader(), limit, into) {
            Ok(()) => {
                self.taken = true;
                Ok(Found::Here)
            }
            Err(ReadError::Failed) => {
                self.faults = self.faults.saturating_add(1);
                Err(LoadError::Fault)
            }
            Err(ReadError::Memory) => Err(LoadError::Memory),
        }
    }

    fn faults(&self) -> u64 {
        self.faults
    }

    fn misses(&self) -> u64 {
        self.misses
    }
}
