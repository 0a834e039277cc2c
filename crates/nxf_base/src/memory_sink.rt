//! A sink in memory, whose writes can be made to fail.
ghost use Rattle.std.specs.Prelude.{◌≡◌, ℕ, ◌+◌, ◌-◌, ◌≤◌, ◌<◌, ◌^◌, [], ◌∷◌, ◌++◌, length, min};
ghost use Rattle.std.specs.Prelude.{OnOk, OnErr, IfOk, IsErrOf, Some, ◌↔◌, ◌⊎◌};
ghost use Rattle.std.specs.List.{Contains};
ghost use Rattle.nxf_base.specs.InMemory.{SinkState};
ghost use Rattle.nxf_base.specs.Write.{Takes, HasWriteCause};

use crate::{Memory, Sink, SinkError};
use std::alloc::Global;
use std::marker::Model;

/// A sink in memory that takes at most `piece` bytes at a time, and answers `Fault` at the writes that it was told.
#[derive(Drop)]
pub struct MemorySink {
    held: Vec<u8>,
    piece: u32,
    failing: Vec<u64>,
    calls: u64,
    faults: u64,
}

impl Model for MemorySink {
    ghost use Rattle.std.specs.Prelude.{◌≤◌};
    ghost use Rattle.nxf_base.specs.InMemory.{SinkState};

    ghost Value = { SinkState };

    ghost view = { λ s. record {
      held = s.held.items;
      piece = s.piece;
      failing = s.failing.items;
      calls = s.calls;
      faults = s.faults;
    } };

    ghost invariant = { λ s. 1 ≤ s.piece };
}

impl MemorySink {
    /// An empty sink, each of whose writes takes at most `piece` bytes.
    pub fn new(alloc: Global, piece: u32) -> MemorySink
        requires { 1 ≤ piece }
        ensures { result ≡ record { held = []; piece = piece; failing = []; calls = 0; faults = 0 } }
    {
        MemorySink {
            held: Vec::new(alloc),
            piece,
            failing: Vec::new(alloc),
            calls: 0,
            faults: 0,
        }
    }

    /// The write with that number, counted from 1, will answer `Fault`. Where there is no memory nothing changes.
    pub fn fail_at(&mut self, call: u64) -> Result<(), Memory>
        ensures ok { OnOk result (self.new ≡ record self.old { failing = self.old.failing ++ call ∷ [] }) }
        ensures err { OnErr result (self.new ≡ self.old) }
    {
        self.failing.push(call)?;
        Ok(())
    }

    /// The bytes that it holds, in the order of the writes.
    pub fn bytes(&self) -> &[u8]
        ensures { result.now ≡ self.now.held }
    {
        &self.held
    }
}

impl Sink for MemorySink {
    ghost held = { λ s. Some s.held };

    ghost faults = { λ s. s.faults };

    // The trait's clauses, and that it fails exactly where it was told to, and takes as much as it may.
    fn write(&mut self, bytes: &[u8]) -> Result<usize, SinkError>
        requires { 0 < length bytes.now }
        ensures takes { Takes (Some self.old.held) (Some self.new.held) bytes.now result }
        ensures cause { HasWriteCause self.old.faults self.new.faults result }
        ensures count { IfOk result (λ count. count ≡ min (length bytes.now) self.old.piece) }
        ensures piece { self.new.piece ≡ self.old.piece }
        ensures failing { self.new.failing ≡ self.old.failing }
        ensures call { self.new.calls ≡ min (self.old.calls + 1) (2 ^ 64 - 1) }
        ensures fault { IsErrOf result SinkError.Fault ↔ Contains self.old.failing self.new.calls }
        ensures calm { self.new.faults ≡ self.old.faults ⊎ IsErrOf result SinkError.Fault }
    {
        self.calls = self.calls.saturating_add(1);
        if self.failing.contains(&self.calls) {
            self.faults = self.faults.saturating_add(1);
            return Err(SinkError::Fault);
        }
        let end = bytes.len().min(self.piece as usize);
        self.held.extend_from_slice(&bytes[..end])?;
        Ok(end)
    }

    fn faults(&self) -> u64 {
        self.faults
    }
}
