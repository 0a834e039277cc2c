//! A classical file is prepared.
ghost use Rattle.std.specs.Prelude.{◌≡◌, ◌+◌, ◌^◌, ◌<◌, ◌∷◌, [], max, length, IfOk, OnOk, true};
ghost use Rattle.nxf_tree.specs.Depth.{formula_depth};
ghost use Rattle.nxf_tree.specs.Sorting.{classical_language};
ghost use Rattle.classical_evaluation_definitions.specs.ClassicalFaults.{role_formulas};
ghost use Rattle.classical_evaluation_definitions.specs.ClassicalSorting.{is_classical, statement_is_classical, HasClassicalFormulas, IsWellFormedClassical};
ghost use Rattle.classical_numbering.specs.Prepared.{deepest};
ghost use Rattle.classical_numbering.specs.steps.Numbering.{AddsFormulas};

use crate::copies::copy_signature;
use crate::formulas::number_formula;
use crate::prepared::Prepared;
use formula_cells::Cells;
use interpretation_parts::Known;
use nxf_base::{Memory, Text};
use nxf_tree::{Body, ClassicalSignature, File, Formula, Statement};
use std::alloc::Global;

fn larger(a: usize, b: usize) -> usize
    ensures { result ≡ max a b }
{
    if a < b { b } else { a }
}

/// The depth of a formula. No memory holds one that is as deep as numbers go.
fn depth_of(formula: &Formula) -> Result<usize, Memory>
    ensures { IfOk result (λ depth. depth ≡ formula_depth formula.now) }
{
    match formula.depth() {
        usize::MAX => Err(Memory),
        depth => Ok(depth),
    }
}

/// Puts a formula under the word of its role behind those before it. Where its statement stands in the file isn't kept.
fn add_formula(
    alloc: Global,
    names: &Known<'_>,
    word: &Text,
    formula: &Formula,
    cells: &mut Cells,
) -> Result<(), Memory>
    requires { is_classical (classical_language names.now.over.now) [] formula.now ≡ true }
    ensures { let added = record { word = word.now; formula = formula.now } ∷ [] in
        OnOk result (AddsFormulas names.now.over.now added cells.old cells.new) }
{
    let mut binders = Vec::new(alloc);
    let cell = number_formula(alloc, names, &mut binders, cells, formula)?;
    cells.add(0, word.copy(alloc)?, cell)
}

/// The same with the formula of a statement, where it has one, and the formula's depth, or 0 where it has none.
fn add_statement(
    alloc: Global,
    names: &Known<'_>,
    statement: &Statement,
    cells: &mut Cells,
) -> Result<usize, Memory>
    requires { statement_is_classical (classical_language names.now.over.now) statement.now ≡ true }
    ensures added { let added = role_formulas (statement.now ∷ []) in
        IfOk result (λ _. AddsFormulas names.now.over.now added cells.old cells.new) }
    ensures depth { IfOk result (λ depth. depth ≡ deepest (role_formulas (statement.now ∷ []))) }
{
    match statement {
        Statement::Annotated {
            name: _,
            role,
            body,
        } => match body {
            Body::Formula(formula) => {
                add_formula(alloc, names, &role.word, formula, cells)?;
                depth_of(formula)
            }
            Body::Typing(_) => Ok(0),
            Body::Logic(_) => Ok(0),
        },
        Statement::Include { file: _, names: _ } => Ok(0),
    }
}

/// The formulas of a file over a classical signature, ready for evaluation: exactly these, in the order of the file, each with
/// its role. The formulas are closed and well sorted, and `$distinct` may stand in them. There is no other error than want of
/// memory.
pub fn prepare(alloc: Global, problem: &File, over: &ClassicalSignature) -> Result<Prepared, Memory>
    requires well_formed { IsWellFormedClassical over.now }
    requires sorted { HasClassicalFormulas over.now problem.now }
    ensures signature { IfOk result (λ prepared. prepared.signature ≡ over.now) }
    ensures formulas { IfOk result (λ prepared. prepared.formulas ≡ role_formulas problem.now.statements) }
{
    // numbers of 32 bits are enough for fewer tables, besides `mk_actual`
    if over.tables.len() >= 0xffff_ffff {
        return Err(Memory);
    }
    let names = Known::of(alloc, over)?;
    let statements = problem.statements.as_slice();
    let mut cells = Cells::new(alloc);
    let mut depth = 0;
    for statement in statements {
        let own = add_statement(alloc, &names, statement, &mut cells)?;
        depth = larger(depth, own);
    }
    Ok(Prepared::new(copy_signature(alloc, over)?, cells, depth))
}
