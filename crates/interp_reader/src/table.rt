//! One table is filled from the map of rows.
ghost use Rattle.std.specs.Prelude.{◌≡◌, ◌+◌, ◌<◌, ◌^◌, length, IfOk, IsTrue};
ghost use Rattle.interp_reader.specs.steps.Filling.{has_all, row_value, rows_at, FillsTable, FitsTable};

use fin_struct::Structure;
use indexmap::IndexMap;
use interpretation_parts::Key;
use nxf_base::Memory;
use std::alloc::Global;

/// The value of a row, if the map has one.
pub fn value_at(
    alloc: Global,
    rows: &IndexMap<Key, u32>,
    place: u32,
    row: &[u32],
) -> Result<Option<u32>, Memory>
    ensures { IfOk result (λ value. value ≡ row_value rows.now.entries place row.now) }
{
    let mut numbers = Vec::new(alloc);
    numbers.push(place)?;
    numbers.extend_from_slice(row)?;
    let key = Key::of(numbers);
    Ok(rows.get(&key).copied())
}

/// Fills a table, and answers whether each of its rows is in the map. Where one isn't, the table is filled up to it.
pub fn fill_table(
    alloc: Global,
    structure: &mut Structure,
    rows: &IndexMap<Key, u32>,
    table: u32,
) -> Result<bool, Memory>
    requires table_in { table < length structure.old.tables }
    requires small { table + 1 < 2 ^ 32 }
    requires below { FitsTable rows.now.entries structure.old table }
    ensures all { IfOk result (λ all. all ≡ has_all rows.now.entries (table + 1) (rows_at structure.old table)) }
    ensures filled { IfOk result (λ all. IsTrue all → FillsTable rows.now.entries table structure.old structure.new) }
{
    let mut walk = structure.tables().rows(alloc, table as usize)?;
    while let Some(row) = walk.row() {
        match value_at(alloc, rows, table + 1, row)? {
            None => return Ok(false),
            Some(value) => structure.set(table, row, value),
        }
        walk.advance();
    }
    Ok(true)
}
