//! Whether the structure of a Kripke text is a countermodel.
ghost use Rattle.std.specs.Prelude.{◌≡◌, ◌≤◌, Ok, Err, MatchResult, IfOk, IfErr, length};
ghost use Rattle.answer_definitions.specs.Answer.{OrMemory};
ghost use Rattle.answer_definitions.specs.Check.{ChecksText, countermodel_line};

use crate::{judge, read_structure};
use formula_cells::Checked;
use nxf_base::{Status, Text};
use nxf_roles::Parts;
use std::alloc::Global;

/// The line `countermodel`, where the bytes of the file of this name are the Kripke text of a structure that is a countermodel of
/// the problem. Else why not: the refusal of the bytes, or the first condition that the structure doesn't meet; or want of memory.
pub fn check_text(
    alloc: Global,
    checked: &Checked,
    parts: &Parts,
    name: &Text,
    bytes: &[u8],
) -> Result<Vec<u8>, Status>
    requires { length bytes.now ≤ 16777216 }
    ensures answered { IfOk result (λ line. ChecksText checked.now parts.now name.now bytes.now (Ok line.items)) }
    ensures refused { IfErr result (OrMemory (λ s. ChecksText checked.now parts.now name.now bytes.now (Err s))) }
{
    let kripke = read_structure(alloc, checked.signature(), name, bytes)?;
    judge(alloc, checked, parts, &kripke)?;
    countermodel(alloc)
}

/// The line that says that a structure is a countermodel.
fn countermodel(alloc: Global) -> Result<Vec<u8>, Status>
    ensures { MatchResult result (λ line. line.items ≡ countermodel_line) (λ s. s ≡ Status.Memory) }
{
    match b"countermodel\n".to_vec(alloc) {
        Ok(line) => Ok(line),
        Err(_) => Err(Status::Memory),
    }
}
