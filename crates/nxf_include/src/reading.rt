//! The statements that stand in one file.
ghost use Rattle.std.specs.Prelude.{◌≡◌, ◌≤◌, ◌+◌, ◌⊎◌, Err, IfOk, length, map};
ghost use Rattle.nxf_tree.specs.Weight.{statement_list_weight};
ghost use Rattle.nxf_include.specs.Roots.{files_of, KeepEach, SomeFaultRose, EachMissRose};
ghost use Rattle.syntax_definitions.specs.Gathered.{Reads, ReadsCounted, Enters};
ghost use Rattle.syntax_definitions.specs.Promises.{AreReadStatements};
ghost use Rattle.syntax_definitions.specs.Refusals.{Meets, OnNoFile};

use crate::gather_error::{not_lexed, not_read};
use crate::{GatherError, load_one_from};
use nxf_base::{Library, List, Text};
use nxf_grammar::{GrammarError, Profile, read_file};
use nxf_tree::Statement;
use std::alloc::Global;
use syntax_definitions::Visited;
use tptp_lex::{LexError, lex, no_more_tokens_than_bytes};

/// The greatest length of all files together.
const SUM_LIMIT: u64 = 67_108_864;

/// The statements of one file as they stand in it, with its length added to the sum.
pub fn enter<L: Library>(
    alloc: Global,
    libraries: &mut [L],
    name: &Text,
    sum: u64,
) -> Result<Visited, GatherError>
    requires { sum ≤ 67108864 }
    ensures answers { Meets (files_of (map L.shelf libraries.old)) (λ files. Enters files sum name.now) result }
    ensures read { IfOk result (λ file. AreReadStatements file.statements) }
    ensures counts { IfOk result (λ file. (file.sum ≤ 67108864) × (sum + statement_list_weight file.statements ≤ file.sum)) }
    ensures no_file { OnNoFile result (EachMissRose (map L.shelf libraries.old) (map L.shelf libraries.new)) }
    ensures read_fault { result ≡ Err GatherError.ReadFault → SomeFaultRose (map L.shelf libraries.old) (map L.shelf libraries.new) }
    ensures keeps { KeepEach (map L.shelf libraries.old) (map L.shelf libraries.new) }
{
    let bytes = load_one_from(alloc, libraries, name)?;
    read_counted(alloc, name, sum, &bytes)
}

/// The statements of these bytes, which are those of the file, with their length added to the sum.
fn read_counted(alloc: Global, name: &Text, sum: u64, bytes: &[u8]) -> Result<Visited, GatherError>
    requires sum { sum ≤ 67108864 }
    requires bytes { length bytes.now ≤ 16777216 }
    ensures answers { ReadsCounted name.now sum bytes.now result ⊎ (result ≡ Err GatherError.Memory) }
    ensures read { IfOk result (λ file. AreReadStatements file.statements) }
    ensures counts { IfOk result (λ file. (file.sum ≤ 67108864) × (sum + statement_list_weight file.statements ≤ file.sum)) }
{
    let sum = sum + bytes.len() as u64;
    if sum > SUM_LIMIT {
        return Err(GatherError::TooMuch);
    }
    let statements = read(alloc, name, bytes)?;
    Ok(Visited { statements, sum })
}

/// The statements of these bytes, which are those of the file.
fn read(alloc: Global, name: &Text, bytes: &[u8]) -> Result<List<Statement>, GatherError>
    requires { length bytes.now ≤ 16777216 }
    ensures answers { Reads name.now bytes.now result ⊎ (result ≡ Err GatherError.Memory) }
    ensures read { IfOk result (λ statements. AreReadStatements statements) }
    ensures weight { IfOk result (λ statements. statement_list_weight statements ≤ length bytes.now) }
{
    no_more_tokens_than_bytes();
    let tokens = match lex(alloc, bytes) {
        Ok(tokens) => tokens,
        Err(LexError::Bad(at)) => return Err(not_lexed(alloc, name, at)),
        Err(LexError::Unclosed(at)) => return Err(not_lexed(alloc, name, at)),
        Err(LexError::Memory) => return Err(GatherError::Memory),
    };
    match read_file(alloc, bytes, &tokens, Profile::Problem) {
        Ok(file) => Ok(file.statements),
        Err(GrammarError::Syntax(place)) => Err(not_read(alloc, name, place)),
        Err(GrammarError::Memory) => Err(GatherError::Memory),
    }
}
