//! The structure of a Kripke text.
ghost use Rattle.std.specs.Prelude.{◌≡◌, ◌≤◌, Ok, Err, IfOk, IfErr, length};
ghost use Rattle.nxf_tree.specs.WellFormed.{IsWellFormed};
ghost use Rattle.fin_struct.specs.KripkeTables.{IsKripkeFor, kripke_structure};
ghost use Rattle.answer_definitions.specs.Answer.{OrMemory};
ghost use Rattle.answer_definitions.specs.KripkeFile as answer;
ghost use Rattle.answer_definitions.specs.KripkeFile.{ReadsStructure};

use crate::tokens_of;
use fin_struct::Kripke;
use kripke_text::read;
use kripke_text_definitions::KripkeTextError;
use nxf_base::{Status, Text};
use nxf_tree::Signature;
use std::alloc::Global;

/// The structure over the signature that the bytes of the file of this name are the Kripke text of, whatever blanks and comments
/// stand between its tokens. Else the refusal, by `ReadsStructure` of `answer_definitions`, or want of memory.
pub fn read_structure(
    alloc: Global,
    over: &Signature,
    name: &Text,
    bytes: &[u8],
) -> Result<Kripke, Status>
    requires well_formed { IsWellFormed over.now }
    requires short { length bytes.now ≤ 16777216 }
    ensures over { IfOk result (λ made. IsKripkeFor over.now made) }
    ensures read { IfOk result (λ made. ReadsStructure over.now name.now bytes.now (Ok (kripke_structure made))) }
    ensures refused { IfErr result (OrMemory (λ s. ReadsStructure over.now name.now bytes.now (Err s))) }
{
    let tokens = tokens_of(alloc, name, bytes)?;
    match read(alloc, bytes, &tokens, over) {
        Ok(kripke) => Ok(kripke),
        Err(error) => Err(status_of_text(error)),
    }
}

/// The status of a text that is refused.
fn status_of_text(error: KripkeTextError) -> Status
    ensures { result ≡ answer.status_of_text error }
{
    match error {
        KripkeTextError::Form(place) => Status::KripkeText(place),
        KripkeTextError::TooManyWorlds(worlds) => Status::TooManyWorlds(worlds),
        KripkeTextError::TooBig(cells) => Status::TooBig(cells),
        KripkeTextError::Memory => Status::Memory,
    }
}
