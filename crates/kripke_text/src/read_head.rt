//! Reads the statements of the head.
ghost use Rattle.std.specs.Prelude.{◌≡◌, ◌<◌, ◌+◌, ◌*◌, ◌^◌, ◌∷◌, [], ◌++◌, ℕ, IfOk, IfErr, OnOk, IfSome, IsSome, Some, if◌then◌else◌, None};
ghost use Rattle.nxf_tree.specs.Rows as rows;
ghost use Rattle.nxf_tree.specs.WellFormed.{IsWellFormed};
ghost use Rattle.fin_struct.specs.KripkeTables.{others_of};
ghost use Rattle.plain_tokens.specs.Marks.{plains};
ghost use Rattle.kripke_text_definitions.specs.KripkeText as text;
ghost use Rattle.kripke_text_laws.specs.steps.FirstParts.{IsWorlds, IsLocal};
ghost use Rattle.kripke_text.specs.steps.Reading.{Reads, RefusesAt, IsDomain, HeadRefuses};
ghost use Rattle.kripke_text.specs.steps.ReadByHead.{ReadsHead};

use crate::head::{domain_statement, local_front, worlds_statement};
use crate::matcher::Matcher;
use crate::pieces::close_statement;
use crate::statements::Statements;
use kripke_text_definitions::KripkeTextError;
use nxf_base::{List, Memory};
use nxf_tree::{Signature, SortName};
use std::alloc::Global;

/// How many objects a statement of so many tokens lists.
fn listed_count(tokens: usize) -> Option<u32>
    requires { tokens < 2 ^ 32 }
    ensures some { IfSome result (λ n. 0 < n) }
    ensures all { (n : ℕ) → 0 < n → tokens ≡ 16 + 4 * n → result ≡ Some n }
{
    if tokens < 20 {
        return None;
    }
    Some(((tokens - 16) / 4) as u32)
}

fn only_if(is_done: bool, number: u32) -> Option<u32>
    ensures { result ≡ (if is_done then Some number else None) }
{
    if is_done { Some(number) } else { None }
}

/// The number of worlds, where the tokens are the statement for it.
fn read_worlds(matcher: &Matcher<'_>) -> Result<Option<u32>, Memory>
    requires { IsSome matcher.now }
    ensures { IfOk result (λ found. Reads text.worlds_statement (λ n. 0 < n) matcher.now found) }
{
    let Some(count) = listed_count(matcher.len()) else {
        return Ok(None);
    };
    let mut all = matcher.again();
    worlds_statement(&mut all, count)?;
    Ok(only_if(all.is_done(), count))
}

/// The actual world, where the tokens are the statement for it.
fn read_local(matcher: &Matcher<'_>, worlds: u32) -> Result<Option<u32>, Memory>
    requires { IsSome matcher.now }
    ensures { IfOk result (λ found. Reads text.local_statement (λ n. n < worlds) matcher.now found) }
{
    let mut left = matcher.again();
    local_front(&mut left)?;
    let Some(actual) = left.take_number(b"w", worlds) else {
        return Ok(None);
    };
    close_statement(&mut left)?;
    Ok(only_if(left.is_done(), actual))
}

/// The number of elements of a sort, where the tokens are the statement for it.
fn read_domain(matcher: &Matcher<'_>, sort: &SortName) -> Result<Option<u32>, Memory>
    requires { IsSome matcher.now }
    ensures { IfOk result (λ found. Reads (text.domain_statement sort.now) (λ n. 0 < n) matcher.now found) }
{
    let Some(count) = listed_count(matcher.len()) else {
        return Ok(None);
    };
    let mut all = matcher.again();
    domain_statement(&mut all, sort, count)?;
    Ok(only_if(all.is_done(), count))
}

/// The number of worlds, by the first statement.
fn next_worlds(statements: &mut Statements<'_>) -> Result<u32, KripkeTextError>
    ensures ok { IfOk result (λ n. (0 < n) × (statements.old ≡ plains (text.worlds_statement n) ∷ statements.new)) }
    ensures refused { IfErr result (RefusesAt 1 IsWorlds statements.old) }
{
    let Some(matcher) = statements.take_next() else {
        return Err(KripkeTextError::Form(1));
    };
    match read_worlds(&matcher)? {
        Some(worlds) => Ok(worlds),
        None => Err(KripkeTextError::Form(1)),
    }
}

/// The actual world, by the second statement.
fn next_local(statements: &mut Statements<'_>, worlds: u32) -> Result<u32, KripkeTextError>
    ensures ok { IfOk result (λ n. (n < worlds) × (statements.old ≡ plains (text.local_statement n) ∷ statements.new)) }
    ensures refused { IfErr result (RefusesAt 2 (IsLocal worlds) statements.old) }
{
    let Some(matcher) = statements.take_next() else {
        return Err(KripkeTextError::Form(2));
    };
    match read_local(&matcher, worlds)? {
        Some(actual) => Ok(actual),
        None => Err(KripkeTextError::Form(2)),
    }
}

/// The number of elements of a sort, by the statement with the number.
fn next_size(
    statements: &mut Statements<'_>,
    sort: &SortName,
    number: u64,
) -> Result<u32, KripkeTextError>
    ensures ok { IfOk result (λ n. (0 < n) × (statements.old ≡ plains (text.domain_statement sort.now n) ∷ statements.new)) }
    ensures refused { IfErr result (RefusesAt number (IsDomain sort.now) statements.old) }
{
    let Some(matcher) = statements.take_next() else {
        return Err(KripkeTextError::Form(number));
    };
    match read_domain(&matcher, sort)? {
        Some(size) => Ok(size),
        None => Err(KripkeTextError::Form(number)),
    }
}

/// What the head of a text says: the actual world, and the number of worlds before those of the elements of each sort.
#[derive(Drop)]
pub struct Head {
    pub actual: u32,
    pub sizes: List<u32>,
}

/// Reads the statements for the worlds, the actual world and the elements of each sort.
pub fn read_head(
    alloc: Global,
    statements: &mut Statements<'_>,
    over: &Signature,
) -> Result<Head, KripkeTextError>
    requires { IsWellFormed over.now }
    ensures worlds { IfOk result (λ head. head.sizes ≡ rows.size_at head.sizes 0 ∷ others_of head.sizes) }
    ensures head { IfOk result (ReadsHead over.now statements.old statements.new) }
    ensures refused { IfErr result (HeadRefuses over.now statements.old) }
{
    let worlds = next_worlds(statements)?;
    let actual = next_local(statements, worlds)?;
    let mut sizes = List::new(alloc);
    push_size(&mut sizes, worlds)?;
    for (place, sort) in over.sorts.as_slice().iter().enumerate() {
        let size = next_size(statements, &sort.name, place as u64 + 3)?;
        push_size(&mut sizes, size)?;
    }
    Ok(Head { actual, sizes })
}

fn push_size(sizes: &mut List<u32>, size: u32) -> Result<(), Memory>
    ensures { OnOk result (sizes.new ≡ sizes.old ++ size ∷ []) }
{
    sizes.push(size)?;
    Ok(())
}
