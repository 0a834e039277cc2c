//! The rows of symbols.
ghost use Rattle.std.specs.Prelude.{◌≡◌, ◌<◌, ◌++◌, length, OnOk};
ghost use Rattle.nxf_tree.specs.Rows.{AllBelow};
ghost use Rattle.nxf_tree.specs.Text.{formula_text, terms_text};
ghost use Rattle.classical_signature_laws.specs.ClassicalSignatures.{GivesBelow};
ghost use Rattle.fin_struct.specs.Cells.{table_at};
ghost use Rattle.interpretation_text_definitions.specs.InterpretationText.{row_elements};
ghost use Rattle.interp_printer.specs.steps.Pieces.{row_text, row_literal, rows_text, symbol_lines};

use crate::names::{open_statement, write_element};
use crate::types::declare_table;
use fin_struct::Grid;
use nxf_base::Memory;
use nxf_tree::{SortName, TableEntry};
use std::alloc::Global;
use text_writer::{put, put_between, write_name};

/// The elements of a row, between commas.
fn write_row(
    alloc: Global,
    out: &mut Vec<u8>,
    sorts: &[SortName],
    args: &[u32],
    row: &[u32],
) -> Result<(), Memory>
    requires args_in { AllBelow (length sorts.now) args.now }
    requires long { length row.now ≡ length args.now }
    ensures { OnOk result (out.new.items ≡ out.old.items ++ terms_text (row_elements sorts.now args.now row.now)) }
{
    for (at, number) in row.iter().enumerate() {
        put_between(out, b",", at)?;
        write_element(alloc, out, sorts, args[at] as usize, *number)?;
    }
    Ok(())
}

/// A symbol at a row.
fn write_application(
    alloc: Global,
    out: &mut Vec<u8>,
    sorts: &[SortName],
    entry: &TableEntry,
    row: &[u32],
) -> Result<(), Memory>
    requires args_in { AllBelow (length sorts.now) entry.now.args }
    requires long { length row.now ≡ length entry.now.args }
    ensures { OnOk result (out.new.items ≡ out.old.items ++ row_text sorts.now entry.now row.now) }
{
    write_name(out, &entry.name)?;
    if row.is_empty() {
        return Ok(());
    }
    put(out, b"(")?;
    write_row(alloc, out, sorts, entry.args.as_slice(), row)?;
    put(out, b")")
}

/// A row and what its cell has.
fn write_literal(
    alloc: Global,
    out: &mut Vec<u8>,
    sorts: &[SortName],
    entry: &TableEntry,
    row: &[u32],
    cell: u32,
) -> Result<(), Memory>
    requires args_in { AllBelow (length sorts.now) entry.now.args }
    requires gives_in { GivesBelow (length sorts.now) entry.now.gives }
    requires long { length row.now ≡ length entry.now.args }
    ensures { OnOk result (out.new.items ≡ out.old.items ++ formula_text (row_literal sorts.now entry.now row.now cell)) }
{
    match entry.gives {
        None => {
            if cell != 1 {
                put(out, b"~ ")?;
            }
            write_application(alloc, out, sorts, entry, row)
        }
        Some(sort) => {
            write_application(alloc, out, sorts, entry, row)?;
            put(out, b" = ")?;
            write_element(alloc, out, sorts, sort as usize, cell)
        }
    }
}

/// The literals of all rows.
fn write_literals(
    alloc: Global,
    out: &mut Vec<u8>,
    sorts: &[SortName],
    entry: &TableEntry,
    tables: &Grid,
    table: usize,
) -> Result<(), Memory>
    requires args_in { AllBelow (length sorts.now) entry.now.args }
    requires gives_in { GivesBelow (length sorts.now) entry.now.gives }
    requires table_in { table < length tables.now }
    requires long { length (table_at tables.now table).sizes ≡ length entry.now.args }
    ensures { OnOk result (out.new.items ≡ out.old.items ++ rows_text sorts.now entry.now tables.now table) }
{
    let mut rows = tables.rows(alloc, table)?;
    for (at, cell) in tables.cells(table).iter().enumerate() {
        let Some(row) = rows.row() else {
            return Ok(());
        };
        put_between(out, b" & ", at)?;
        write_literal(alloc, out, sorts, entry, row, *cell)?;
        rows.advance();
    }
    Ok(())
}

/// The statements of a symbol.
pub fn table_statements(
    alloc: Global,
    out: &mut Vec<u8>,
    sorts: &[SortName],
    entry: &TableEntry,
    tables: &Grid,
    table: usize,
) -> Result<(), Memory>
    requires args_in { AllBelow (length sorts.now) entry.now.args }
    requires gives_in { GivesBelow (length sorts.now) entry.now.gives }
    requires table_in { table < length tables.now }
    requires long { length (table_at tables.now table).sizes ≡ length entry.now.args }
    ensures { OnOk result (out.new.items ≡ out.old.items ++ symbol_lines sorts.now entry.now tables.now table) }
{
    declare_table(alloc, out, sorts, entry)?;
    open_statement(alloc, out, &entry.name, b"axiom")?;
    write_literals(alloc, out, sorts, entry, tables, table)?;
    put(out, b").\n")
}
