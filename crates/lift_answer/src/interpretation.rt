//! The structure of an interpretation.
ghost use Rattle.std.specs.Prelude.{◌≡◌, ◌≤◌, ◌<◌, ◌^◌, ◌⊎◌, Ok, Err, IfOk, IfErr, length};
ghost use Rattle.nxf_tree.specs.ClassicalSignature.{classical_signature_of};
ghost use Rattle.nxf_tree.specs.WellFormed.{IsWellFormed};
ghost use Rattle.nxf_tree.specs.declared.profile.Profile.TheVariants.{Interpretation};
ghost use Rattle.syntax_definitions.specs.Spells.{Spells};
ghost use Rattle.fin_struct.specs.KripkeTables.{IsKripkeFor, kripke_structure};
ghost use Rattle.fin_struct.specs.StructureTables.{IsFor};
ghost use Rattle.interpretation_definitions.specs.Interpretation.{interpretation_of};
ghost use Rattle.answer_definitions.specs.Answer.{OrMemory};
ghost use Rattle.answer_definitions.specs.InterpretationFile as answer;
ghost use Rattle.answer_definitions.specs.InterpretationFile.{ReadsInterpretation};
ghost use Rattle.lift_answer.specs.steps.Reading.{IsUnspelled, GivesNone};

use check_answer::tokens_of;
use classical_signatures::classical;
use fin_struct::{Kripke, Structure};
use interp_reader::read;
use interpretation_definitions::InterpError;
use kripke_build::lift;
use nxf_base::{Memory, Status, Text};
use nxf_grammar::{GrammarError, Profile, read_file};
use nxf_tree::{File, Signature};
use std::alloc::Global;
use tptp_lex::no_more_tokens_than_bytes;

/// The Kripke structure over the signature that corresponds to the structure that an interpretation gives, which is what the bytes of
/// the file of this name spell. Else the refusal, by `ReadsInterpretation` of `answer_definitions`, or want of memory.
pub fn read_interpretation(
    alloc: Global,
    over: &Signature,
    name: &Text,
    bytes: &[u8],
) -> Result<Kripke, Status>
    requires well_formed { IsWellFormed over.now }
    requires short { length bytes.now ≤ 16777216 }
    ensures over { IfOk result (λ made. IsKripkeFor over.now made) }
    ensures read { IfOk result (λ made. ReadsInterpretation over.now name.now bytes.now (Ok (kripke_structure made))) }
    ensures refused { IfErr result (OrMemory (λ s. ReadsInterpretation over.now name.now bytes.now (Err s))) }
{
    let file = file_of(alloc, name, bytes)?;
    let structure = structure_of(alloc, over, &file)?;
    match lift(alloc, over, &structure) {
        Ok(kripke) => Ok(kripke),
        Err(Memory) => Err(Status::Memory),
    }
}

/// The file that the bytes spell as an interpretation.
fn file_of(alloc: Global, name: &Text, bytes: &[u8]) -> Result<File, Status>
    requires { length bytes.now ≤ 16777216 }
    ensures spelled { IfOk result (λ file. Spells Interpretation bytes.now file) }
    ensures short { IfOk result (λ file. length file.statements < 2 ^ 31) }
    ensures refused { IfErr result (OrMemory (IsUnspelled name.now bytes.now)) }
{
    no_more_tokens_than_bytes();
    let tokens = tokens_of(alloc, name, bytes)?;
    match read_file(alloc, bytes, &tokens, Profile::Interpretation) {
        Ok(file) => Ok(file),
        Err(GrammarError::Syntax(place)) => Err(not_read(alloc, name, place)),
        Err(GrammarError::Memory) => Err(Status::Memory),
    }
}

/// The refusal of a file of which no rule reads a statement, or want of memory for its name.
fn not_read(alloc: Global, name: &Text, place: u32) -> Status
    ensures { result ≡ Status.Syntax name.now place ⊎ result ≡ Status.Memory }
{
    match name.copy(alloc) {
        Ok(name) => Status::Syntax(name, place),
        Err(Memory) => Status::Memory,
    }
}

/// The structure over the classical signature that an interpretation gives.
fn structure_of(alloc: Global, over: &Signature, file: &File) -> Result<Structure, Status>
    requires well_formed { IsWellFormed over.now }
    requires short { length file.now.statements < 2 ^ 31 }
    ensures given { IfOk result (λ structure. interpretation_of (classical_signature_of over.now) file.now ≡ Ok structure) }
    ensures over { IfOk result (IsFor (classical_signature_of over.now)) }
    ensures refused { IfErr result (OrMemory (GivesNone over.now file.now)) }
{
    let Ok(classical) = classical(alloc, over) else {
        return Err(Status::Memory);
    };
    match read(alloc, &classical, file) {
        Ok(structure) => Ok(structure),
        Err(error) => Err(status_of_interpretation(error)),
    }
}

/// The status of an interpretation that gives no structure.
fn status_of_interpretation(error: InterpError) -> Status
    ensures { result ≡ answer.status_of_interpretation error }
{
    match error {
        InterpError::Kind(kind) => Status::Interp(kind),
        InterpError::TooManyWorlds(worlds) => Status::TooManyWorlds(worlds),
        InterpError::TooBig(cells) => Status::TooBig(cells),
        InterpError::Memory => Status::Memory,
    }
}
