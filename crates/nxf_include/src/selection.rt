//! What an include brings of its file.
ghost use Rattle.std.specs.Prelude.{◌≡◌, ◌++◌, ◌∷◌, [], List, ℕ, IfOk, IfErr, OnOk, MatchOption};
ghost use Rattle.std.specs.List.{filter};
ghost use Rattle.syntax_definitions.specs.Gathered.{is_listed};
ghost use Rattle.nxf_include.specs.steps.Selecting.{IsSetOf, HasNamesOf, GainsName, MissesNone, MissesFirst, AddsSelected, RefusesSelected};

use crate::GatherError;
use crate::gather_error::no_such_name;
use indexmap::IndexSet;
use nxf_base::{List, Memory, Text};
use nxf_tree::Statement;
use std::alloc::Global;

/// Adds what an include brings: all statements of its file, or those with a listed name.
pub fn add_selected(
    alloc: Global,
    into: &mut List<Statement>,
    file: &Text,
    names: &Option<List<Text>>,
    statements: List<Statement>,
) -> Result<(), GatherError>
    ensures added { OnOk result (AddsSelected file.now names.now statements into.old into.new) }
    ensures refused { IfErr result (RefusesSelected file.now names.now statements) }
{
    let Some(names) = names else {
        return Ok(add_all(into, statements)?);
    };
    let names = names.as_slice();
    let found = add_listed(alloc, into, names, statements)?;
    match missing(&found, names) {
        Some(name) => Err(no_such_name(alloc, file, name)),
        None => Ok(()),
    }
}

/// Adds one statement, which goes where there is no memory.
pub fn add(into: &mut List<Statement>, statement: Statement) -> Result<(), Memory>
    ensures { OnOk result (into.new ≡ into.old ++ statement ∷ []) }
{
    into.push(statement)?;
    Ok(())
}

/// Adds all statements.
fn add_all(into: &mut List<Statement>, statements: List<Statement>) -> Result<(), Memory>
    ensures { OnOk result (into.new ≡ into.old ++ statements) }
{
    for statement in statements.into_vec() {
        into.push(statement)?;
    }
    Ok(())
}

/// Adds the statements with a listed name, and answers with the names that they have.
fn add_listed(
    alloc: Global,
    into: &mut List<Statement>,
    names: &[Text],
    statements: List<Statement>,
) -> Result<IndexSet<Text>, Memory>
    ensures added { OnOk result (into.new ≡ into.old ++ filter (is_listed names.now) statements) }
    ensures found { IfOk result (HasNamesOf (filter (is_listed names.now) statements)) }
{
    let listed = set_of(alloc, names)?;
    let mut found = IndexSet::new(alloc);
    for statement in statements.into_vec() {
        if is_among(&listed, &statement) {
            keep(alloc, into, &mut found, statement)?;
        } else {
            drop(statement);
        }
    }
    Ok(found)
}

/// Adds the statement, and its name to those that were found.
fn keep(
    alloc: Global,
    into: &mut List<Statement>,
    found: &mut IndexSet<Text>,
    statement: Statement,
) -> Result<(), Memory>
    ensures added { OnOk result (into.new ≡ into.old ++ statement ∷ []) }
    ensures found { OnOk result (GainsName found.old found.new statement) }
{
    note_name(alloc, found, &statement)?;
    add(into, statement)
}

/// The names as a set.
fn set_of(alloc: Global, names: &[Text]) -> Result<IndexSet<Text>, Memory>
    ensures { IfOk result (IsSetOf names.now) }
{
    let mut set = IndexSet::new(alloc);
    for name in names {
        set.insert(name.copy(alloc)?)?;
    }
    Ok(set)
}

/// Whether the statement's name is in the set.
fn is_among(listed: &IndexSet<Text>, statement: &Statement) -> bool
    ensures { (names : List (List ℕ)) → IsSetOf names listed.now → result ≡ is_listed names statement.now }
{
    match statement {
        Statement::Annotated { name, .. } => listed.contains(name),
        Statement::Include { .. } => false,
    }
}

/// Adds the statement's name.
fn note_name(alloc: Global, found: &mut IndexSet<Text>, statement: &Statement) -> Result<(), Memory>
    ensures { OnOk result (GainsName found.old found.new statement.now) }
{
    match statement {
        Statement::Annotated { name, .. } => {
            found.insert(name.copy(alloc)?)?;
            Ok(())
        }
        Statement::Include { .. } => Ok(()),
    }
}

/// The first of the names that isn't in the set.
fn missing<'a>(found: &IndexSet<Text>, names: &'a [Text]) -> Option<&'a Text>
    ensures { MatchOption result (MissesNone found.now names.now) (λ name. MissesFirst found.now names.now name.now) }
{
    for name in names {
        if !found.contains(name) {
            return Some(name);
        }
    }
    None
}
