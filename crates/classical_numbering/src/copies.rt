//! A copy of a classical signature.
ghost use Rattle.std.specs.Prelude.{◌≡◌, IfOk};

use nxf_base::{List, Memory};
use nxf_tree::{ClassicalSignature, SortName, TableEntry};
use std::alloc::Global;

/// A classical signature that equals this one.
pub(crate) fn copy_signature(
    alloc: Global,
    signature: &ClassicalSignature,
) -> Result<ClassicalSignature, Memory>
    ensures { IfOk result (λ copy. copy ≡ signature.now) }
{
    let sorts = copy_sorts(alloc, &signature.sorts)?;
    let tables = copy_tables(alloc, &signature.tables)?;
    Ok(ClassicalSignature { sorts, tables })
}

fn copy_sorts(alloc: Global, sorts: &List<SortName>) -> Result<List<SortName>, Memory>
    ensures { IfOk result (λ copies. copies ≡ sorts.now) }
{
    let mut copies = List::with_capacity(alloc, sorts.len())?;
    for sort in sorts.as_slice() {
        copies.push(sort.copy(alloc)?)?;
    }
    Ok(copies)
}

fn copy_tables(alloc: Global, tables: &List<TableEntry>) -> Result<List<TableEntry>, Memory>
    ensures { IfOk result (λ copies. copies ≡ tables.now) }
{
    let mut copies = List::with_capacity(alloc, tables.len())?;
    for table in tables.as_slice() {
        copies.push(copy_table(alloc, table)?)?;
    }
    Ok(copies)
}

fn copy_table(alloc: Global, table: &TableEntry) -> Result<TableEntry, Memory>
    ensures { IfOk result (λ copy. copy ≡ table.now) }
{
    let name = table.name.copy(alloc)?;
    let args = copy_numbers(alloc, &table.args)?;
    Ok(TableEntry {
        name,
        args,
        gives: table.gives,
    })
}

fn copy_numbers(alloc: Global, numbers: &List<u32>) -> Result<List<u32>, Memory>
    ensures { IfOk result (λ copies. copies ≡ numbers.now) }
{
    let mut copies = List::with_capacity(alloc, numbers.len())?;
    for number in numbers.as_slice() {
        copies.push(*number)?;
    }
    Ok(copies)
}
