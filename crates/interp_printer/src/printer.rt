//! The interpretation of a structure.
ghost use Rattle.std.specs.Prelude.{◌≡◌, ◌++◌, IfOk, OnOk};
ghost use Rattle.classical_signature_laws.specs.ClassicalSignatures.{HasSorts, HasArguments};
ghost use Rattle.fin_struct.specs.StructureTables.{IsFor};
ghost use Rattle.interpretation_text_definitions.specs.InterpretationText as text;
ghost use Rattle.interp_printer.specs.steps.Pieces.{lines_of};

use crate::sorts::{actual_statements, sort_statements};
use crate::tables::table_statements;
use fin_struct::Structure;
use nxf_base::Memory;
use nxf_tree::ClassicalSignature;
use std::alloc::Global;

/// The text of the interpretation of a structure over the classical signature: a line for each statement, where each sort is
/// closed and each row of each table is stated. There is no other error than want of memory.
pub fn print(
    alloc: Global,
    over: &ClassicalSignature,
    structure: &Structure,
) -> Result<Vec<u8>, Memory>
    requires sorts { HasSorts over.now }
    requires arguments { HasArguments over.now }
    requires over { IsFor over.now structure.now }
    ensures { IfOk result (λ bytes. bytes.items ≡ text.interpretation_text over.now structure.now) }
{
    let mut out = Vec::new(alloc);
    put_sorts(alloc, &mut out, over, structure)?;
    actual_statements(alloc, &mut out, over.sorts.as_slice(), structure.actual())?;
    put_tables(alloc, &mut out, over, structure)?;
    Ok(out)
}

/// The statements of all sorts.
fn put_sorts(
    alloc: Global,
    out: &mut Vec<u8>,
    over: &ClassicalSignature,
    structure: &Structure,
) -> Result<(), Memory>
    requires { IsFor over.now structure.now }
    ensures { OnOk result (out.new.items ≡ out.old.items ++ lines_of (text.all_sort_statements over.now structure.now.sizes)) }
{
    let sorts = over.sorts.as_slice();
    for (sort, size) in structure.sizes().iter().enumerate() {
        sort_statements(alloc, out, sorts, sort, *size)?;
    }
    Ok(())
}

/// The statements of all symbols.
fn put_tables(
    alloc: Global,
    out: &mut Vec<u8>,
    over: &ClassicalSignature,
    structure: &Structure,
) -> Result<(), Memory>
    requires sorts { HasSorts over.now }
    requires arguments { HasArguments over.now }
    requires over { IsFor over.now structure.now }
    ensures { OnOk result (out.new.items ≡ out.old.items ++ lines_of (text.all_table_statements over.now structure.now.tables)) }
{
    let sorts = over.sorts.as_slice();
    for (table, entry) in over.tables.as_slice().iter().enumerate() {
        table_statements(alloc, out, sorts, entry, structure.tables(), table)?;
    }
    Ok(())
}
