//! The Kripke text of a countermodel.
ghost use Rattle.std.specs.Prelude.{◌≡◌, ◌≤◌, Ok, Err, MatchResult, IfOk, IfErr, length};
ghost use Rattle.nxf_tree.specs.WellFormed.{IsWellFormed};
ghost use Rattle.fin_struct.specs.KripkeTables.{IsKripkeFor, kripke_structure};
ghost use Rattle.kripke_text_definitions.specs.KripkeText.{ktext};
ghost use Rattle.answer_definitions.specs.Answer.{OrMemory};
ghost use Rattle.answer_definitions.specs.Lift.{LiftsText};

use crate::read_interpretation;
use check_answer::judge;
use fin_struct::Kripke;
use formula_cells::Checked;
use kripke_text::print;
use nxf_base::{Memory, Status, Text};
use nxf_roles::Parts;
use nxf_tree::Signature;
use std::alloc::Global;

/// The Kripke text of the structure that corresponds to the one that an interpretation gives, which is what the bytes of the file of
/// this name spell, where it is a countermodel of the problem. Else why there is none: the refusal of the bytes, or the first
/// condition that the structure doesn't meet; or want of memory.
pub fn lift_text(
    alloc: Global,
    checked: &Checked,
    parts: &Parts,
    name: &Text,
    bytes: &[u8],
) -> Result<Vec<u8>, Status>
    requires { length bytes.now ≤ 16777216 }
    ensures answered { IfOk result (λ text. LiftsText checked.now parts.now name.now bytes.now (Ok text.items)) }
    ensures refused { IfErr result (OrMemory (λ s. LiftsText checked.now parts.now name.now bytes.now (Err s))) }
{
    let kripke = read_interpretation(alloc, checked.signature(), name, bytes)?;
    judge(alloc, checked, parts, &kripke)?;
    text_of(alloc, checked.signature(), &kripke)
}

/// The text of a Kripke structure.
fn text_of(alloc: Global, over: &Signature, kripke: &Kripke) -> Result<Vec<u8>, Status>
    requires well_formed { IsWellFormed over.now }
    requires over { IsKripkeFor over.now kripke.now }
    ensures { MatchResult result (λ text. text.items ≡ ktext over.now (kripke_structure kripke.now)) (λ s. s ≡ Status.Memory) }
{
    match print(alloc, over, kripke) {
        Ok(text) => Ok(text),
        Err(Memory) => Err(Status::Memory),
    }
}
