//! The formulas of a file become numbers.

ghost use Rattle.std.specs.Prelude.{◌<◌, ◌^◌, length};
ghost use Rattle.nxf_sorts.specs.steps.Numbering.{IsGoodSignature};
ghost use Rattle.nxf_sorts.specs.steps.Statements.{AddsFormula, AddsStatement, NumbersStatements};

use crate::binders::Binders;
use crate::error::{SortError, at_statement};
use crate::fault::Fault;
use crate::formula::number_formula;
use formula_cells::Cells;
use nxf_base::Text;
use nxf_signatures::Names;
use nxf_tree::{Body, Formula, Statement};
use std::alloc::Global;

/// A formula statement, behind those before it.
fn number_whole(
    alloc: Global,
    names: &Names,
    place: u32,
    name: &Text,
    formula: &Formula,
    cells: &mut Cells,
) -> Result<(), Fault>
    requires { IsGoodSignature names.now.signature }
    ensures { AddsFormula names.now place name.now formula.now cells.old cells.new result }
{
    let mut binders = Binders::new(alloc);
    let cell = number_formula(alloc, names, &mut binders, cells, formula)?;
    let label = name.copy(alloc)?;
    cells.add(place, label, cell)?;
    Ok(())
}

fn number_statement(
    alloc: Global,
    names: &Names,
    place: u32,
    statement: &Statement,
    cells: &mut Cells,
) -> Result<(), Fault>
    requires { IsGoodSignature names.now.signature }
    ensures { AddsStatement names.now place statement.now cells.old cells.new result }
{
    match statement {
        Statement::Annotated {
            name,
            role: _,
            body,
        } => match body {
            Body::Formula(formula) => number_whole(alloc, names, place, name, formula, cells),
            Body::Typing(_) => Ok(()),
            Body::Logic(_) => Ok(()),
        },
        Statement::Include { file: _, names: _ } => Ok(()),
    }
}

/// The formulas of the statements in order, as cells; or the first that has a fault.
pub fn number_statements(
    alloc: Global,
    names: &Names,
    statements: &[Statement],
) -> Result<Cells, SortError>
    requires good { IsGoodSignature names.now.signature }
    requires few { length statements.now < 2 ^ 31 }
    ensures { NumbersStatements names.now statements.now result }
{
    let mut cells = Cells::new(alloc);
    let mut place = 0;
    for statement in statements {
        place += 1;
        match number_statement(alloc, names, place, statement, &mut cells) {
            Err(fault) => return Err(at_statement(fault, place)),
            Ok(()) => {}
        }
    }
    Ok(cells)
}
