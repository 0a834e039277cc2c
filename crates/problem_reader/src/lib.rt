//! Reads a problem: the parts of a gathered file, and its formulas with numbers for names over its signature.
#![tactic(auto)]

ghost use Rattle.std.specs.Prelude.{MatchResult};
ghost use Rattle.syntax_definitions.specs.Promises.{IsFine};
ghost use Rattle.answer_definitions.specs.Answer.{OrMemory};
ghost use Rattle.answer_definitions.specs.ProblemFile.{IsReading, IsProfileRefusal};

use logic_spec::{SpecError, read_spec};
use nxf_base::Status;
use nxf_roles::{Parts, RoleError, sort_roles};
use nxf_sorts::{Checked, SortError, check};
use nxf_tree::File;
use std::alloc::Global;

/// What a gathered file is read as, where it is in the profile: the part of each formula, and the checked formulas. Else the
/// first refusal: of its roles, then of its logic statement, then of its sorts, by `reading_of` of `nxf_tree`'s specs. There is
/// no other error than that and want of memory.
pub fn read_problem(alloc: Global, file: &File) -> Result<(Parts, Checked), Status>
    requires { IsFine file.now }
    ensures { MatchResult result (λ reading. IsReading file.now reading.0 reading.1) (OrMemory (IsProfileRefusal file.now)) }
{
    let parts = match sort_roles(alloc, file) {
        Ok(parts) => parts,
        Err(RoleError::Kind(kind, place)) => return Err(Status::Role(kind, place)),
        Err(RoleError::Memory) => return Err(Status::Memory),
    };
    let spec = match read_spec(alloc, file) {
        Ok(spec) => spec,
        Err(SpecError::Kind(kind)) => return Err(Status::Spec(kind)),
        Err(SpecError::Memory) => return Err(Status::Memory),
    };
    match check(alloc, file, &spec) {
        Ok(checked) => Ok((parts, checked)),
        Err(SortError::Kind(kind, place, name)) => Err(Status::Sort(kind, place, name)),
        Err(SortError::Memory) => Err(Status::Memory),
    }
}
