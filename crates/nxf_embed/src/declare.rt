//! The declarations of the printed problem.
ghost use Rattle.std.specs.Prelude.{◌≡◌, ◌∷◌, [], ◌++◌, IfOk, OnOk, map};
ghost use Rattle.std.specs.Option.{option_map};
ghost use Rattle.nxf_tree.specs.Problem as spec;
ghost use Rattle.nxf_tree.specs.Problem.{role_named, classical_sort_at};
ghost use Rattle.nxf_embed.specs.steps.Declared.{actual_declaration};

use classical_syntax::{actual_name, world_name};
use nxf_base::{List, Memory, Text};
use nxf_tree::{Body, ClassicalSignature, Formula, Role, SortName, Statement, TableEntry, Typing};
use std::alloc::Global;

/// A role of one word.
fn role(alloc: Global, word: &[u8]) -> Result<Role, Memory>
    ensures { IfOk result (λ made. made ≡ role_named word.now) }
{
    let word = Text::from_bytes(alloc, word)?;
    Ok(Role { word, suffix: None })
}

/// A formula as a statement, under a name and a role.
pub fn formula_statement(
    alloc: Global,
    name: &[u8],
    word: &[u8],
    formula: Formula,
) -> Result<Statement, Memory>
    ensures { IfOk result (λ statement. statement ≡ spec.statement_of name.now word.now formula) }
{
    let role = role(alloc, word)?;
    let name = Text::from_bytes(alloc, name)?;
    Ok(Statement::Annotated {
        name,
        role,
        body: Body::Formula(formula),
    })
}

/// A statement that declares something, named by what it declares.
fn declaration(alloc: Global, name: &Text, typing: Typing) -> Result<Statement, Memory>
    ensures { IfOk result (λ statement. statement ≡ spec.declaration name.now typing) }
{
    let role = role(alloc, b"type")?;
    let name = name.copy(alloc)?;
    Ok(Statement::Annotated {
        name,
        role,
        body: Body::Typing(typing),
    })
}

/// The declarations of a classical signature in their order: the sorts, of which `$i` needs none, the actual world, the
/// relations, the existence tables and the symbols. There is no other error than want of memory.
pub fn declarations(
    alloc: Global,
    signature: &ClassicalSignature,
) -> Result<List<Statement>, Memory>
    ensures { IfOk result (λ statements. statements ≡ spec.declarations signature.now) }
{
    let mut statements = List::new(alloc);
    declare_sorts(alloc, &signature.sorts, &mut statements)?;
    statements.push(declare_actual(alloc)?)?;
    declare_tables(alloc, signature, &mut statements)?;
    Ok(statements)
}

fn declare_sorts(
    alloc: Global,
    sorts: &List<SortName>,
    statements: &mut List<Statement>,
) -> Result<(), Memory>
    ensures { OnOk result (statements.new ≡ statements.old ++ spec.sort_declarations sorts.now) }
{
    for sort in sorts.as_slice() {
        declare_sort(alloc, sort, statements)?;
    }
    Ok(())
}

fn declare_sort(
    alloc: Global,
    sort: &SortName,
    statements: &mut List<Statement>,
) -> Result<(), Memory>
    ensures { OnOk result (statements.new ≡ statements.old ++ spec.sort_declarations (sort.now ∷ [])) }
{
    match sort {
        SortName::Individual => Ok(()),
        SortName::User(name) => {
            let typing = Typing::Sort(name.copy(alloc)?);
            statements.push(declaration(alloc, name, typing)?)?;
            Ok(())
        }
    }
}

/// The actual world is a constant of the sort of worlds.
fn declare_actual(alloc: Global) -> Result<Statement, Memory>
    ensures { IfOk result (λ statement. statement ≡ actual_declaration) }
{
    let name = actual_name(alloc)?;
    let sort = SortName::User(world_name(alloc)?);
    let typing = Typing::Symbol(actual_name(alloc)?, List::new(alloc), Some(sort));
    declaration(alloc, &name, typing)
}

fn declare_tables(
    alloc: Global,
    signature: &ClassicalSignature,
    statements: &mut List<Statement>,
) -> Result<(), Memory>
    ensures { OnOk result (statements.new ≡ statements.old ++ map (spec.table_declaration signature.now.sorts) signature.now.tables) }
{
    for table in signature.tables.as_slice() {
        statements.push(declare_table(alloc, &signature.sorts, table)?)?;
    }
    Ok(())
}

fn declare_table(
    alloc: Global,
    sorts: &List<SortName>,
    table: &TableEntry,
) -> Result<Statement, Memory>
    ensures { IfOk result (λ statement. statement ≡ spec.table_declaration sorts.now table.now) }
{
    let arguments = sorts_at(alloc, sorts, &table.args)?;
    let gives = result_sort(alloc, sorts, table.gives)?;
    let typing = Typing::Symbol(table.name.copy(alloc)?, arguments, gives);
    declaration(alloc, &table.name, typing)
}

/// The sorts with these numbers.
fn sorts_at(
    alloc: Global,
    sorts: &List<SortName>,
    numbers: &List<u32>,
) -> Result<List<SortName>, Memory>
    ensures { IfOk result (λ found. found ≡ map (classical_sort_at sorts.now) numbers.now) }
{
    let mut found = List::with_capacity(alloc, numbers.len())?;
    for number in numbers.as_slice() {
        found.push(sort_at(alloc, sorts, *number)?)?;
    }
    Ok(found)
}

/// The sort of a function's values; none for a predicate.
fn result_sort(
    alloc: Global,
    sorts: &List<SortName>,
    gives: Option<u32>,
) -> Result<Option<SortName>, Memory>
    ensures { IfOk result (λ sort. sort ≡ option_map (classical_sort_at sorts.now) gives) }
{
    match gives {
        Some(number) => Ok(Some(sort_at(alloc, sorts, number)?)),
        None => Ok(None),
    }
}

/// The sort with the number, and `$i` past the end.
fn sort_at(alloc: Global, sorts: &List<SortName>, number: u32) -> Result<SortName, Memory>
    ensures { IfOk result (λ sort. sort ≡ classical_sort_at sorts.now number) }
{
    match sorts.as_slice().get(number as usize) {
        Some(sort) => sort.copy(alloc),
        None => Ok(SortName::Individual),
    }
}
