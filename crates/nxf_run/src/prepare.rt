//! What is to be written, before a byte of it is.
ghost use Rattle.std.specs.Prelude.{◌≡◌, ◌≤◌, IsTrue, IfOk, IfErr, MatchResult, length, map};
ghost use Rattle.nxf_tree.specs.Text.{text_of, is_printable};
ghost use Rattle.nxf_include.specs.Roots.{files_of, KeepEach};
ghost use Rattle.syntax_definitions.specs.Promises.{IsFine};
ghost use Rattle.answer_definitions.specs.Answer as answer;
ghost use Rattle.answer_definitions.specs.Answer.{OrMemory};
ghost use Rattle.answer_definitions.specs.ProblemFile.{IsProfileRefusal};
ghost use Rattle.nxf_run.specs.Ending.{NamesFile};
ghost use Rattle.nxf_run.specs.Forms.{form_of};
ghost use Rattle.nxf_run.specs.Meaning.{IsTranslation, EmbedMeans, CheckMeans, LiftMeans, TextMeans};
ghost use Rattle.nxf_run.specs.steps.Preparing.{AreLoaded, IsOfLoading, HasLoadCause};
ghost use Rattle.nxf_run.specs.steps.Preparing.{LoadRefuses, EmbedRefuses, CheckRefuses, LiftRefuses, Refuses};

use crate::words::{Command, command_of};
use check_answer::check_text;
use formula_cells::Checked;
use lift_answer::lift_text;
use nxf_base::{Library, Memory, Status, Text};
use nxf_embed::embed;
use nxf_include::{GatherError, gather_from, load_one_from};
use nxf_roles::Parts;
use nxf_tree::File;
use problem_reader::read_problem;
use std::alloc::Global;
use tf0_printer::print_file;

/// The text of the answer to the words, or why there is none.
pub fn prepare<L: Library>(
    alloc: Global,
    words: &[Text],
    libraries: &mut [L],
) -> Result<Vec<u8>, Status>
    ensures text { let told = files_of (map L.shelf libraries.old) in IfOk result (λ text. TextMeans told (form_of words.now) text.items) }
    ensures refused { let told = files_of (map L.shelf libraries.old) in IfErr result (Refuses told words.now) }
    ensures named { IfErr result (λ s. IsOfLoading s → NamesFile words.now) }
    ensures causes { IfErr result (HasLoadCause (map L.shelf libraries.old) (map L.shelf libraries.new)) }
    ensures keeps { KeepEach (map L.shelf libraries.old) (map L.shelf libraries.new) }
{
    match command_of(words) {
        Command::Embed(name) => embed_file(alloc, libraries, name),
        Command::Check(name, second) => check_files(alloc, libraries, name, second),
        Command::Lift(name, second) => lift_files(alloc, libraries, name, second),
        Command::Later => Err(Status::NotYet),
        Command::Unknown => Err(Status::Usage),
    }
}

/// The translation of the file of this name with all that it includes.
fn embed_file<L: Library>(
    alloc: Global,
    libraries: &mut [L],
    name: &Text,
) -> Result<Vec<u8>, Status>
    ensures text { let told = files_of (map L.shelf libraries.old) in IfOk result (λ text. EmbedMeans told name.now text.items) }
    ensures refused { let told = files_of (map L.shelf libraries.old) in IfErr result (EmbedRefuses told name.now) }
    ensures causes { IfErr result (HasLoadCause (map L.shelf libraries.old) (map L.shelf libraries.new)) }
    ensures keeps { KeepEach (map L.shelf libraries.old) (map L.shelf libraries.new) }
{
    match gather_from(alloc, libraries, name) {
        Ok(file) => translate(alloc, file),
        Err(error) => Err(status_of_gathering(error)),
    }
}

/// The status of a file that is refused as it is loaded or gathered.
fn status_of_gathering(error: GatherError) -> Status
    ensures { result ≡ answer.status_of_gathering error }
{
    match error {
        GatherError::NoFile(name) => Status::NoFile(name),
        GatherError::ReadFault => Status::ReadFault,
        GatherError::TooLong(name) => Status::TooLong(name),
        GatherError::TooMuch => Status::TooMuch,
        GatherError::Deep(name) => Status::Deep(name),
        GatherError::Lex(name, offset) => Status::Lex(name, offset),
        GatherError::Syntax(name, place) => Status::Syntax(name, place),
        GatherError::NoSuchName(file, name) => Status::NoSuchName(file, name),
        GatherError::Memory => Status::Memory,
    }
}

/// The translation of a gathered file.
fn translate(alloc: Global, file: File) -> Result<Vec<u8>, Status>
    requires { IsFine file }
    ensures { MatchResult result (λ text. IsTranslation file text.items) (OrMemory (IsProfileRefusal file)) }
{
    let (parts, checked) = match read_problem(alloc, &file) {
        Ok(reading) => reading,
        Err(status) => return Err(status),
    };
    drop(file);
    match embed(alloc, &checked, &parts) {
        Ok(problem) => print(alloc, &problem),
        Err(Memory) => Err(Status::Memory),
    }
}

fn print(alloc: Global, problem: &File) -> Result<Vec<u8>, Status>
    requires printable { IsTrue (is_printable problem.now) }
    ensures { MatchResult result (λ text. text.items ≡ text_of problem.now) (λ s. s ≡ Status.Memory) }
{
    match print_file(alloc, problem) {
        Ok(text) => Ok(text),
        Err(Memory) => Err(Status::Memory),
    }
}

/// The line `countermodel`, where the Kripke text of the second file is that of a countermodel of the file of this name with all
/// that it includes.
fn check_files<L: Library>(
    alloc: Global,
    libraries: &mut [L],
    name: &Text,
    second: &Text,
) -> Result<Vec<u8>, Status>
    ensures text { let told = files_of (map L.shelf libraries.old) in IfOk result (λ line. CheckMeans told name.now second.now line.items) }
    ensures refused { let told = files_of (map L.shelf libraries.old) in IfErr result (CheckRefuses told name.now second.now) }
    ensures causes { IfErr result (HasLoadCause (map L.shelf libraries.old) (map L.shelf libraries.new)) }
    ensures keeps { KeepEach (map L.shelf libraries.old) (map L.shelf libraries.new) }
{
    let files = load_two(alloc, libraries, name, second)?;
    check_text(alloc, &files.checked, &files.parts, second, &files.bytes)
}

/// The Kripke text of the structure that the interpretation in the second file gives, where it is a countermodel of the file of this
/// name with all that it includes.
fn lift_files<L: Library>(
    alloc: Global,
    libraries: &mut [L],
    name: &Text,
    second: &Text,
) -> Result<Vec<u8>, Status>
    ensures text { let told = files_of (map L.shelf libraries.old) in IfOk result (λ text. LiftMeans told name.now second.now text.items) }
    ensures refused { let told = files_of (map L.shelf libraries.old) in IfErr result (LiftRefuses told name.now second.now) }
    ensures causes { IfErr result (HasLoadCause (map L.shelf libraries.old) (map L.shelf libraries.new)) }
    ensures keeps { KeepEach (map L.shelf libraries.old) (map L.shelf libraries.new) }
{
    let files = load_two(alloc, libraries, name, second)?;
    lift_text(alloc, &files.checked, &files.parts, second, &files.bytes)
}

/// What two files are loaded as: the problem of the first, and the bytes of the second.
#[derive(Drop)]
struct TwoFiles {
    parts: Parts,
    checked: Checked,
    bytes: Vec<u8>,
}

/// The problem of the file of this name with all that it includes, and then the second file.
fn load_two<L: Library>(
    alloc: Global,
    libraries: &mut [L],
    name: &Text,
    second: &Text,
) -> Result<TwoFiles, Status>
    ensures loaded { let told = files_of (map L.shelf libraries.old) in
        IfOk result (λ two. AreLoaded told name.now second.now two.parts two.checked two.bytes.items) }
    ensures short { IfOk result (λ two. length two.bytes.items ≤ 16777216) }
    ensures refused { let told = files_of (map L.shelf libraries.old) in IfErr result (LoadRefuses told name.now second.now) }
    ensures causes { IfErr result (HasLoadCause (map L.shelf libraries.old) (map L.shelf libraries.new)) }
    ensures keeps { KeepEach (map L.shelf libraries.old) (map L.shelf libraries.new) }
{
    let file = match gather_from(alloc, libraries, name) {
        Ok(file) => file,
        Err(error) => return Err(status_of_gathering(error)),
    };
    let (parts, checked) = match read_problem(alloc, &file) {
        Ok(reading) => reading,
        Err(status) => return Err(status),
    };
    drop(file);
    match load_one_from(alloc, libraries, second) {
        Ok(bytes) => Ok(TwoFiles {
            parts,
            checked,
            bytes,
        }),
        Err(error) => Err(status_of_gathering(error)),
    }
}
