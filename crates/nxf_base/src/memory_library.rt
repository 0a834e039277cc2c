//! A library in memory, whose loads can be made to fail.
ghost use Rattle.std.specs.Prelude.{◌≡◌, ℕ, ◌+◌, ◌-◌, ◌<◌, ◌^◌, [], ◌∷◌, ◌++◌, min, take};
ghost use Rattle.std.specs.Prelude.{OnOk, OnErr, Some, None, MatchOption, Ok, IsErrOf, ◌↔◌, ◌⊎◌};
ghost use Rattle.std.specs.List.{Contains};
ghost use Rattle.std.specs.FinMap as map;
ghost use Rattle.nxf_base.specs.Files.{file_of};
ghost use Rattle.nxf_base.specs.Load.{Loads};
ghost use Rattle.nxf_base.specs.Shelf.{Keeps};
ghost use Rattle.nxf_base.specs.Causes.{Rose};
ghost use Rattle.nxf_base.specs.InMemory.{shelf_of};

use crate::{Found, Library, LoadError, Memory, Text};
use std::alloc::Global;
use std::collections::VecDeque;
use std::marker::Model;

/// A library in memory, which tells its files, and answers `Fault` at the loads that it was told.
#[derive(Drop)]
pub struct MemoryLibrary {
    alloc: Global,
    // the newest first
    stored: VecDeque<(Text, Text)>,
    failing: Vec<u64>,
    calls: u64,
    faults: u64,
    misses: u64,
}

impl Model for MemoryLibrary {
    ghost use Rattle.nxf_base.specs.InMemory.{LibraryState, library_state_code};
    ghost use Rattle.std.specs.FinMap as map;

    ghost Value = { LibraryState };

    ghost coded = { library_state_code };

    ghost view = { λ m. record {
      files = map.from_entries m.stored.items;
      failing = m.failing.items;
      calls = m.calls;
      faults = m.faults;
      misses = m.misses;
    } };
}

impl MemoryLibrary {
    /// A library with no file, whose loads never answer `Fault`. It takes no memory yet.
    pub fn new(alloc: Global) -> MemoryLibrary
        ensures { result ≡ record { files = map.empty; failing = []; calls = 0; faults = 0; misses = 0 } }
    {
        MemoryLibrary {
            alloc,
            stored: VecDeque::new(alloc),
            failing: Vec::new(alloc),
            calls: 0,
            faults: 0,
            misses: 0,
        }
    }

    /// Adds a file, in the place of an earlier one of that name. Where there is no memory nothing changes.
    pub fn add(&mut self, name: Text, bytes: &[u8]) -> Result<(), Memory>
        ensures ok { OnOk result (self.new ≡ record self.old { files = map.insert self.old.files name bytes.now }) }
        ensures err { OnErr result (self.new ≡ self.old) }
    {
        let text = Text::from_bytes(self.alloc, bytes)?;
        self.stored.push_front((name, text))?;
        Ok(())
    }

    /// The load with that number, counted from 1, will answer `Fault`. Where there is no memory nothing changes.
    pub fn fail_at(&mut self, call: u64) -> Result<(), Memory>
        ensures ok { OnOk result (self.new ≡ record self.old { failing = self.old.failing ++ call ∷ [] }) }
        ensures err { OnErr result (self.new ≡ self.old) }
    {
        self.failing.push(call)?;
        Ok(())
    }
}

impl Library for MemoryLibrary {
    ghost shelf = { shelf_of };

    // The trait's clauses, and that it fails exactly where it was told to.
    fn load(&mut self, name: &Text, limit: u64, into: &mut Vec<u8>) -> Result<Found, LoadError>
        requires { limit < 2 ^ 32 }
        ensures loads { Loads (Some self.old.files) name.now limit result into.old.items into.new.items }
        ensures keeps { Keeps (shelf_of self.old) (shelf_of self.new) }
        ensures faulted { IsErrOf result LoadError.Fault → Rose self.old.faults self.new.faults }
        ensures absent { result ≡ Ok Found.Absent → Rose self.old.misses self.new.misses }
        ensures failing { self.new.failing ≡ self.old.failing }
        ensures call { self.new.calls ≡ min (self.old.calls + 1) (2 ^ 64 - 1) }
        ensures fault { IsErrOf result LoadError.Fault ↔ Contains self.old.failing self.new.calls }
        ensures calm { self.new.faults ≡ self.old.faults ⊎ IsErrOf result LoadError.Fault }
        ensures present { self.new.misses ≡ self.old.misses ⊎ result ≡ Ok Found.Absent }
    {
        self.calls = self.calls.saturating_add(1);
        if self.failing.contains(&self.calls) {
            self.faults = self.faults.saturating_add(1);
            return Err(LoadError::Fault);
        }
        if let Some(file) = find(&self.stored, name) {
            return append(file.bytes(), limit, into);
        }
        self.misses = self.misses.saturating_add(1);
        Ok(Found::Absent)
    }

    fn faults(&self) -> u64 {
        self.faults
    }

    fn misses(&self) -> u64 {
        self.misses
    }
}

// The newest file of that name.
fn find<'a>(stored: &'a VecDeque<(Text, Text)>, name: &Text) -> Option<&'a Text>
    ensures { MatchOption result (file_of name.now (map.from_entries stored.now.items) ≡ None)
        (λ file. file_of name.now (map.from_entries stored.now.items) ≡ Some file.now) }
{
    for (key, file) in stored {
        if key.same(name) {
            return Some(file);
        }
    }
    None
}

// Appends the first bytes of a file, one more than the limit at most.
fn append(file: &[u8], limit: u64, into: &mut Vec<u8>) -> Result<Found, LoadError>
    requires { limit < 2 ^ 32 }
    ensures here { OnOk result (into.new.items ≡ into.old.items ++ take (limit + 1) file.now) }
    ensures absent { result ≡ Ok Found.Absent → ⊥ }
    ensures err { OnErr result (into.new.items ≡ into.old.items) }
    ensures fault { IsErrOf result LoadError.Fault → ⊥ }
{
    let end = file.len().min(limit as usize + 1);
    into.extend_from_slice(&file[..end])?;
    Ok(Found::Here)
}
