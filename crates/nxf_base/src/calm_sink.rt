//! A sink in memory that never fails, and takes whatever it is given.
ghost use Rattle.std.specs.Prelude.{◌≡◌, ◌<◌, ◌++◌, [], length, IfOk, IfErr, Some};
ghost use Rattle.nxf_base.specs.Write.{Takes, HasWriteCause};

use crate::{Sink, SinkError};
use std::alloc::Global;
use std::marker::Model;

/// A sink in memory, which contracts see as the list of the bytes that it holds. No write answers `Fault`.
#[derive(Drop)]
pub struct CalmSink {
    held: Vec<u8>,
}

impl Model for CalmSink {
    ghost use Rattle.std.specs.Prelude.{List, ℕ};

    ghost Value = { List ℕ };

    ghost view = { λ s. s.held.items };
}

impl CalmSink {
    /// An empty sink. It takes no memory yet.
    pub fn new(alloc: Global) -> CalmSink
        ensures { result ≡ [] }
    {
        CalmSink {
            held: Vec::new(alloc),
        }
    }

    /// The bytes that it holds, in the order of the writes.
    pub fn bytes(&self) -> &[u8]
        ensures { result.now ≡ self.now }
    {
        &self.held
    }
}

impl Sink for CalmSink {
    ghost held = { λ s. Some s };

    ghost faults = { λ s. 0 };

    // The trait's clauses, and that it takes all, or finds no memory.
    fn write(&mut self, bytes: &[u8]) -> Result<usize, SinkError>
        requires { 0 < length bytes.now }
        ensures takes { Takes (Some self.old) (Some self.new) bytes.now result }
        ensures cause { HasWriteCause 0 0 result }
        ensures all { IfOk result (λ count. count ≡ length bytes.now) }
        ensures calm { IfErr result (λ error. error ≡ SinkError.Memory) }
    {
        self.held.extend_from_slice(bytes)?;
        Ok(bytes.len())
    }

    fn faults(&self) -> u64 {
        0
    }
}
