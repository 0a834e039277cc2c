//! Why a file's sorts are refused.

ghost use Rattle.nxf_tree.specs.SortFaults.{SortFault};
ghost use Rattle.nxf_sorts.specs.steps.Numbering.{IsFault};
ghost use Rattle.nxf_sorts.specs.Judging.{IsFileFault};
ghost use Rattle.std.specs.Prelude.{◌≡◌, Option};
ghost use Rattle.std.specs.Option.{option_map};

use crate::fault::Fault;
use nxf_base::{Memory, SortKind, Text};

/// The first fault of a file's sorts, with the number of its statement and the name that it is about; or there was no
/// memory.
#[derive(Debug, Drop)]
pub enum SortError {
    Kind(SortKind, u32, Text),
    Memory,
}

impl From<Memory> for SortError {
    ghost use Rattle.nxf_sorts.specs.declared.error.SortError.TheVariants as errors;

    ghost from_gives = { λ _ error. error ≡ errors.Memory };

    fn from(_: Memory) -> SortError {
        SortError::Memory
    }
}

/// The fault at a statement of the file.
pub fn at_statement(fault: Fault, place: u32) -> SortError
    ensures { (o : Option SortFault) → IsFault o fault → IsFileFault (option_map (λ f. (place, f)) o) result }
{
    match fault {
        Fault::Kind(kind, name) => SortError::Kind(kind, place, name),
        Fault::Memory => SortError::Memory,
    }
}
