//! The sorts and tables that the printed problem declares.
ghost use Rattle.std.specs.Prelude.{◌≡◌, ◌∷◌, [], ◌++◌, ◌<◌, ◌≤◌, ◌^◌, ℕ, suc, true, map, length, if◌then◌else◌, IfOk, OnOk, IsTrue};
ghost use Rattle.std.specs.List.{list_all};
ghost use Rattle.std.specs.Option.{option_map};
ghost use Rattle.nxf_tree.specs.ClassicalSignature as meant;
ghost use Rattle.nxf_tree.specs.Names as spelled;
ghost use Rattle.nxf_tree.specs.Signature as signatures;
ghost use Rattle.nxf_tree.specs.Sorting.{in_range, gives_in_range};
ghost use Rattle.nxf_tree.specs.WellFormed.{IsWellFormed, has_sorts_in_range};
ghost use Rattle.name_laws.specs.NameLaws.{HasDifferentClassicalNames};
ghost use Rattle.classical_signature_laws.specs.ClassicalSignatures.{IsClassicalOf, HasSorts, HasArguments};
ghost use Rattle.classical_signatures.specs.steps.ExistenceTable.{existence_table};

use classical_syntax::{
    existence_name, is_constant_regime, is_flexible_designation, relation_name, user_name,
    user_sort, world_sort,
};
use nxf_base::{List, Memory};
use nxf_tree::{
    ClassicalSignature, IndexEntry, Signature, SortEntry, SortName, SymbolEntry, TableEntry,
};
use std::alloc::Global;

/// The signature of the printed problem: the worlds are a sort before the user's, and the tables are a relation for each
/// index, existence for each sort that isn't constant, and the symbols, each with a world in front where it depends on
/// worlds. The sorts, the actual world and the tables all have different names, and each number of a sort in a table is one of
/// a sort. There is no other error than want of memory.
pub fn classical(alloc: Global, over: &Signature) -> Result<ClassicalSignature, Memory>
    requires { IsWellFormed over.now }
    ensures made { IfOk result (λ made. made ≡ meant.classical_signature_of over.now) }
    ensures is_classical { IfOk result (λ made. IsClassicalOf over.now made) }
    ensures different { IfOk result (λ made. HasDifferentClassicalNames made) }
    ensures sorts { IfOk result (λ made. HasSorts made) }
    ensures arguments { IfOk result (λ made. HasArguments made) }
{
    let sorts = classical_sorts(alloc, &over.sorts)?;
    let mut tables = List::new(alloc);
    add_relations(alloc, &over.indexes, &mut tables)?;
    add_existences(alloc, &over.sorts, &mut tables)?;
    add_symbols(alloc, over, &mut tables)?;
    Ok(ClassicalSignature { sorts, tables })
}

fn classical_sorts(alloc: Global, sorts: &List<SortEntry>) -> Result<List<SortName>, Memory>
    ensures { IfOk result (λ made. made ≡ SortName.User spelled.world_name ∷ map spelled.user_sort (signatures.sort_names sorts.now)) }
{
    let mut made = List::new(alloc);
    made.push(world_sort(alloc)?)?;
    for sort in sorts.as_slice() {
        made.push(user_sort(alloc, &sort.name)?)?;
    }
    Ok(made)
}

fn add_relations(
    alloc: Global,
    indexes: &List<IndexEntry>,
    tables: &mut List<TableEntry>,
) -> Result<(), Memory>
    ensures { OnOk result (tables.new ≡ tables.old ++ meant.relation_entries indexes.now) }
{
    for index in indexes.as_slice() {
        tables.push(relation_table(alloc, index)?)?;
    }
    Ok(())
}

/// A relation between two worlds.
fn relation_table(alloc: Global, index: &IndexEntry) -> Result<TableEntry, Memory>
    ensures { IfOk result (λ table. table ≡ meant.relation_entry index.now) }
{
    let name = relation_name(alloc, &index.name)?;
    let args = two_numbers(alloc, 0, 0)?;
    Ok(TableEntry {
        name,
        args,
        gives: None,
    })
}

fn two_numbers(alloc: Global, first: u32, second: u32) -> Result<List<u32>, Memory>
    ensures { IfOk result (λ numbers. numbers ≡ first ∷ second ∷ []) }
{
    let mut numbers = List::with_capacity(alloc, 2)?;
    numbers.push(first)?;
    numbers.push(second)?;
    Ok(numbers)
}

fn add_existences(
    alloc: Global,
    sorts: &List<SortEntry>,
    tables: &mut List<TableEntry>,
) -> Result<(), Memory>
    requires { length sorts.now ≤ 2 ^ 31 }
    ensures { OnOk result (tables.new ≡ tables.old ++ meant.existence_entries 0 sorts.now) }
{
    for (place, sort) in sorts.as_slice().iter().enumerate() {
        add_existence(alloc, place as u32 + 1, sort, tables)?;
    }
    Ok(())
}

/// Adds existence in the sort with this number in the printed problem, unless the sort is constant.
fn add_existence(
    alloc: Global,
    number: u32,
    sort: &SortEntry,
    tables: &mut List<TableEntry>,
) -> Result<(), Memory>
    ensures { OnOk result (tables.new ≡ tables.old ++ existence_table number sort.now) }
{
    if is_constant_regime(sort.regime) {
        return Ok(());
    }
    let name = existence_name(alloc, &sort.name)?;
    let args = two_numbers(alloc, 0, number)?;
    tables.push(TableEntry {
        name,
        args,
        gives: None,
    })?;
    Ok(())
}

fn add_symbols(
    alloc: Global,
    signature: &Signature,
    tables: &mut List<TableEntry>,
) -> Result<(), Memory>
    requires { IsWellFormed signature.now }
    ensures { OnOk result (tables.new ≡ tables.old ++ meant.symbol_entries signature.now.symbols) }
{
    for symbol in signature.symbols.as_slice() {
        tables.push(symbol_table(alloc, signature, symbol)?)?;
    }
    Ok(())
}

/// A symbol, with a world in front where it depends on worlds.
fn symbol_table(
    alloc: Global,
    signature: &Signature,
    symbol: &SymbolEntry,
) -> Result<TableEntry, Memory>
    requires well_formed { IsWellFormed signature.now }
    requires in_range { IsTrue (has_sorts_in_range signature.now symbol.now) }
    ensures { IfOk result (λ table. table ≡ meant.symbol_entry_of symbol.now) }
{
    let gives = next_result(signature, symbol.gives);
    let name = user_name(alloc, &symbol.name)?;
    let args = table_args(alloc, signature, takes_world(symbol), &symbol.args)?;
    Ok(TableEntry { name, args, gives })
}

/// Whether the rows of a symbol have a world in front: a predicate's do, and a flexible function's.
pub fn takes_world(symbol: &SymbolEntry) -> bool
    ensures { result ≡ signatures.takes_world symbol.now }
{
    match symbol.gives {
        Some(_) => is_flexible_designation(symbol.designation),
        None => true,
    }
}

/// The number of a function's sort in the printed problem.
fn next_result(signature: &Signature, gives: Option<u32>) -> Option<u32>
    requires well_formed { IsWellFormed signature.now }
    requires in_range { IsTrue (gives_in_range signature.now.sorts gives) }
    ensures { result ≡ option_map suc gives }
{
    match gives {
        Some(number) => Some(number + 1),
        None => None,
    }
}

/// The numbers of the arguments' sorts in the printed problem.
fn table_args(
    alloc: Global,
    signature: &Signature,
    with_world: bool,
    sorts: &List<u32>,
) -> Result<List<u32>, Memory>
    requires well_formed { IsWellFormed signature.now }
    requires in_range { IsTrue (list_all (in_range signature.now.sorts) sorts.now) }
    ensures { IfOk result (λ args. args ≡ (if with_world then 0 ∷ map suc sorts.now else map suc sorts.now)) }
{
    let mut args = world_front(alloc, with_world, sorts.len())?;
    for number in sorts.as_slice() {
        args.push(*number + 1)?;
    }
    Ok(args)
}

/// The number of the sort of worlds, or no number, with room for that many more.
fn world_front(alloc: Global, with_world: bool, room: usize) -> Result<List<u32>, Memory>
    ensures { IfOk result (λ args. args ≡ (if with_world then 0 ∷ [] else [])) }
{
    if !with_world {
        return List::with_capacity(alloc, room);
    }
    let mut args = List::with_capacity(alloc, room.saturating_add(1))?;
    args.push(0)?;
    Ok(args)
}
