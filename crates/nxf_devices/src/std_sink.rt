//! The standard outputs.
ghost use Rattle.std.specs.Prelude.{◌≡◌};

use nxf_base::{Sink, SinkError};
use std::io::Write;

/// One of the two streams that a program writes to.
#[derive(Clone, Copy)]
pub enum Stream {
    Out,
    Err,
}

/// Standard output or standard error. It does not tell what it holds.
#[derive(Drop)]
pub struct StdSink {
    rt: HostRuntime,
    stream: Stream,
    faults: u64,
}

impl StdSink {
    pub fn new(rt: HostRuntime, stream: Stream) -> Self
        ensures { result.faults ≡ 0 }
    {
        StdSink {
            rt,
            stream,
            faults: 0,
        }
    }
}

impl Sink for StdSink {
    ghost use Rattle.std.specs.Prelude.{None};

    ghost held = { λ sink. None };

    ghost faults = { λ sink. sink.faults };

    // A write that takes no byte is a failure too.
    fn write(&mut self, bytes: &[u8]) -> Result<usize, SinkError> {
        let written = match self.stream {
            Stream::Out => self.rt.stdout().write(bytes),
            Stream::Err => self.rt.stderr().write(bytes),
        };
        match written {
            Ok(count) if count > 0 => Ok(count),
            _ => {
                self.faults = self.faults.saturating_add(1);
                Err(SinkError::Fault)
            }
        }
    }

    fn faults(&self) -> u64 {
        self.faults
    }
}
