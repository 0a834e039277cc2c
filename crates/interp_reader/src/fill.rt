//! The structure with given sizes, filled from the map of rows.
ghost use Rattle.std.specs.Prelude.{◌≡◌, ℕ, List, [], ◌+◌, ◌<◌, ◌^◌, length, is_some, Some, Ok, IfOk, IfErr, OnOk, IsTrue, None};
ghost use Rattle.nxf_tree.specs.declared.tree.ClassicalSignature.{ClassicalSignature as Over};
ghost use Rattle.nxf_tree.specs.Rows.{size_at, AreSizes};
ghost use Rattle.classical_signature_laws.specs.ClassicalSignatures.{HasSorts};
ghost use Rattle.fin_struct.specs.Limits.{RefusesShape};
ghost use Rattle.fin_struct.specs.StructureTables.{blank_structure, IsFor, IsStructure};
ghost use Rattle.interpretation_definitions.specs.Context.{symbols_of};
ghost use Rattle.interpretation_definitions.specs.Interpretation.{incomplete_from, structure_given, within_limits};
ghost use Rattle.interp_reader.specs.Refusals.{Refuses, RefusesAs, RefusesSymbol};
ghost use Rattle.interp_reader.specs.steps.Filling.{are_settled, rows_in, rows_at, row_value, AreBelow, ArePlaces};
ghost use Rattle.interp_reader.specs.steps.Filling.{FillsTable, FitsTable, IsBlankAt, IsFilledBelow, SetsActual};

use crate::places::given_places;
use crate::table::{fill_table, value_at};
use fin_struct::{ShapeError, Structure};
use indexmap::{IndexMap, IndexSet};
use interpretation_definitions::InterpError;
use interpretation_parts::Key;
use nxf_base::{InterpKind, List, Memory, Text};
use nxf_tree::ClassicalSignature;
use std::alloc::Global;

fn refusal(error: ShapeError) -> InterpError
    ensures { (csig : Over) (sizes : List ℕ) → RefusesShape csig sizes error → RefusesAs csig sizes result }
{
    match error {
        ShapeError::TooManyWorlds(worlds) => InterpError::TooManyWorlds(worlds),
        ShapeError::TooBig(cells) => InterpError::TooBig(cells),
        ShapeError::Memory => InterpError::Memory,
    }
}

/// The structure with these sizes, all cells 0, or why there is none.
fn blank(
    alloc: Global,
    over: &ClassicalSignature,
    sizes: &List<u32>,
) -> Result<Structure, InterpError>
    requires sorts { HasSorts over.now }
    requires sizes { AreSizes over.now.sorts sizes.now }
    ensures made { IfOk result (λ made. made ≡ blank_structure over.now sizes.now) }
    ensures within { IfOk result (λ made. IsStructure made) }
    ensures refused { IfErr result (RefusesAs over.now sizes.now) }
{
    match Structure::new(alloc, over, sizes) {
        Ok(structure) => Ok(structure),
        Err(error) => Err(refusal(error)),
    }
}

/// Makes the actual world what its row says, and answers whether there is one.
fn fill_actual(
    alloc: Global,
    structure: &mut Structure,
    rows: &IndexMap<Key, u32>,
) -> Result<bool, Memory>
    requires below { (world : ℕ) → row_value rows.now.entries 0 [] ≡ Some world → world < size_at structure.old.sizes 0 }
    ensures there { IfOk result (λ there. there ≡ is_some (row_value rows.now.entries 0 [])) }
    ensures filled { OnOk result (SetsActual rows.now.entries structure.old structure.new) }
{
    match value_at(alloc, rows, 0, &[])? {
        None => Ok(false),
        Some(world) => {
            structure.set_actual(world);
            Ok(true)
        }
    }
}

/// Fills a table that is blank, and answers whether no row of it is missing: none is given, or all are.
fn fill_one(
    alloc: Global,
    structure: &mut Structure,
    rows: &IndexMap<Key, u32>,
    places: &IndexSet<u32>,
    table: u32,
) -> Result<bool, Memory>
    requires table_in { table < length structure.old.tables }
    requires small { table + 1 < 2 ^ 32 }
    requires below { FitsTable rows.now.entries structure.old table }
    requires places { ArePlaces places.now.keys rows.now.entries }
    requires blank { IsBlankAt structure.old table }
    ensures complete { IfOk result (λ complete. complete ≡ are_settled rows.now.entries (table + 1) (rows_at structure.old table)) }
    ensures filled { IfOk result (λ complete. IsTrue complete → FillsTable rows.now.entries table structure.old structure.new) }
{
    if places.contains(&(table + 1)) {
        fill_table(alloc, structure, rows, table)
    } else {
        Ok(true)
    }
}

/// The refusal of a symbol of which some rows are missing.
fn incomplete(alloc: Global, name: &[u8]) -> InterpError
    ensures { RefusesSymbol (Some name.now) result }
{
    match Text::from_bytes(alloc, name) {
        Ok(name) => InterpError::Kind(InterpKind::Incomplete(name)),
        Err(Memory) => InterpError::Memory,
    }
}

/// Fills the tables in their order, up to the first of which some rows are missing.
fn fill_tables(
    alloc: Global,
    over: &ClassicalSignature,
    sizes: &List<u32>,
    structure: &mut Structure,
    rows: &IndexMap<Key, u32>,
    places: &IndexSet<u32>,
) -> Result<(), InterpError>
    requires small { length over.now.tables + 1 < 2 ^ 32 }
    requires below { AreBelow over.now sizes.now rows.now.entries }
    requires places { ArePlaces places.now.keys rows.now.entries }
    requires blank { IsFilledBelow over.now sizes.now rows.now.entries 0 structure.old }
    ensures complete { OnOk result (incomplete_from 1 sizes.now (rows_in rows.now.entries) over.now.tables ≡ None) }
    ensures filled { OnOk result (IsFilledBelow over.now sizes.now rows.now.entries (length over.now.tables) structure.new) }
    ensures refused { IfErr result (RefusesSymbol (incomplete_from 1 sizes.now (rows_in rows.now.entries) over.now.tables)) }
{
    for (at, entry) in over.tables.as_slice().iter().enumerate() {
        if !fill_one(alloc, structure, rows, places, at as u32)? {
            return Err(incomplete(alloc, entry.name.bytes()));
        }
    }
    Ok(())
}

/// Fills a blank structure, up to the first symbol of which some rows are missing.
fn fill_all(
    alloc: Global,
    over: &ClassicalSignature,
    sizes: &List<u32>,
    structure: &mut Structure,
    rows: &IndexMap<Key, u32>,
) -> Result<(), InterpError>
    requires small { length over.now.tables + 1 < 2 ^ 32 }
    requires below { AreBelow over.now sizes.now rows.now.entries }
    requires blank { structure.old ≡ blank_structure over.now sizes.now }
    requires within { IsStructure structure.old }
    ensures complete { OnOk result (incomplete_from 0 sizes.now (rows_in rows.now.entries) (symbols_of over.now) ≡ None) }
    ensures filled { OnOk result (structure.new ≡ structure_given sizes.now (rows_in rows.now.entries) over.now.tables) }
    ensures refused { IfErr result (RefusesSymbol (incomplete_from 0 sizes.now (rows_in rows.now.entries) (symbols_of over.now))) }
{
    let places = given_places(alloc, rows)?;
    let there = fill_actual(alloc, structure, rows)?;
    if places.contains(&0) && !there {
        return Err(incomplete(alloc, b"mk_actual"));
    }
    fill_tables(alloc, over, sizes, structure, rows, &places)?;
    Ok(())
}

/// The structure that the rows of the map give, within the limits, or the first symbol of which some rows are missing.
pub fn fill(
    alloc: Global,
    over: &ClassicalSignature,
    sizes: &List<u32>,
    rows: &IndexMap<Key, u32>,
) -> Result<Structure, InterpError>
    requires sorts { HasSorts over.now }
    requires sizes { AreSizes over.now.sorts sizes.now }
    requires small { length over.now.tables + 1 < 2 ^ 32 }
    requires below { AreBelow over.now sizes.now rows.now.entries }
    ensures exact { IfOk result (λ structure. within_limits sizes.now (rows_in rows.now.entries) over.now ≡ Ok structure) }
    ensures over { IfOk result (IsFor over.now) }
    ensures refused { IfErr result (Refuses (within_limits sizes.now (rows_in rows.now.entries) over.now)) }
{
    let mut structure = blank(alloc, over, sizes)?;
    fill_all(alloc, over, sizes, &mut structure, rows)?;
    Ok(structure)
}
