//! Faults of sorts.

ghost use Rattle.nxf_sorts.specs.steps.Numbering.{IsFault};
ghost use Rattle.std.specs.Prelude.{◌≡◌, Some};

use nxf_base::{Memory, SortKind, Text};
use std::alloc::Global;

/// The first fault of a formula, a typing or an override: its kind and the name that it is about; or want of memory.
#[derive(Debug, Drop)]
pub enum Fault {
    Kind(SortKind, Text),
    Memory,
}

impl From<Memory> for Fault {
    ghost use Rattle.nxf_sorts.specs.declared.fault.Fault.TheVariants as faults;

    ghost from_gives = { λ _ fault. fault ≡ faults.Memory };

    fn from(_: Memory) -> Fault {
        Fault::Memory
    }
}

/// A fault that is about a name.
pub fn fault_of(alloc: Global, kind: SortKind, name: &[u8]) -> Fault
    ensures { IsFault (Some (kind, name.now)) result }
{
    match Text::from_bytes(alloc, name) {
        Ok(name) => Fault::Kind(kind, name),
        Err(Memory) => Fault::Memory,
    }
}
