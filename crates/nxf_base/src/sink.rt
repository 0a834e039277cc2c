//! What a sink of bytes takes.
ghost use Rattle.std.specs.Prelude.{◌≡◌, ℕ, ◌<◌, List, Option, length};
ghost use Rattle.nxf_base.specs.Write.{Takes, HasWriteCause};

use std::alloc::AllocError;

/// Why a write took nothing: the sink failed, or there was no memory.
#[derive(Debug, Drop, Clone, Copy)]
pub enum SinkError {
    /// The sink failed.
    Fault,
    /// There was no memory for the bytes.
    Memory,
}

impl From<AllocError> for SinkError {
    ghost use Rattle.std.specs.Prelude.{◌≡◌};
    ghost use Rattle.nxf_base.specs.declared.sink.SinkError.TheVariants.{Memory};

    ghost from_gives = { λ _ error. error ≡ Memory };

    fn from(_: AllocError) -> SinkError {
        SinkError::Memory
    }
}

/// A sink of bytes. It may tell what it holds.
pub trait Sink {
    /// What it holds, where it tells it.
    ghost held: { Self → Option (List ℕ) };

    /// How often it has failed.
    ghost faults: { Self → ℕ };

    /// Appends some of the first bytes, at least one, and gives their number. After an error it holds what it held.
    fn write(&mut self, bytes: &[u8]) -> Result<usize, SinkError>
        requires { 0 < length bytes.now }
        ensures takes { Takes (held self.old) (held self.new) bytes.now result }

        // The count of failures never falls, and a failure is counted, up to the last value of the count.
        ensures cause { HasWriteCause (faults self.old) (faults self.new) result };

    /// How often it has failed, up to 2^64 - 1.
    fn faults(&self) -> u64
        ensures { result ≡ faults self.now };
}
