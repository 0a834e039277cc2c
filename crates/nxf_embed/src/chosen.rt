//! The formulas of a file as statements, each by its part.
ghost use Rattle.std.specs.Prelude.{◌≤◌, ◌<◌, length, IfOk, OnOk};
ghost use Rattle.nxf_tree.specs.WellFormed.{HasDifferentNames};
ghost use Rattle.nxf_embed.specs.steps.Chosen as spec;

use crate::declare::formula_statement;
use formula_cells::Checked;
use nxf_base::{List, Memory};
use nxf_roles::Parts;
use nxf_translate::translate_closed;
use nxf_tree::{Part, Statement};
use std::alloc::Global;

/// Adds the translation of each formula that has a part, under its own name. Both lists are in the order of the file.
pub fn add_formulas(
    alloc: Global,
    checked: &Checked,
    parts: &Parts,
    statements: &mut List<Statement>,
) -> Result<(), Memory>
    requires { HasDifferentNames checked.now.signature }
    ensures { OnOk result (spec.AddsChosen checked.now parts.now statements.old statements.new) }
{
    let mut next = 0;
    for at in 0..checked.len() {
        next = add_formula(alloc, checked, at, parts, next, statements)?;
    }
    Ok(())
}

/// Adds the formula where the next part is its own, and answers with the place of the next part.
fn add_formula(
    alloc: Global,
    checked: &Checked,
    at: usize,
    parts: &Parts,
    next: usize,
    statements: &mut List<Statement>,
) -> Result<usize, Memory>
    requires different { HasDifferentNames checked.now.signature }
    requires formula { at < length checked.now.formulas }
    requires within { next ≤ length parts.now }
    ensures within { IfOk result (λ after. after ≤ length parts.now) }
    ensures added { IfOk result (spec.AddsNext checked.now at parts.now next statements.old statements.new) }
{
    if next >= parts.len() {
        return Ok(next);
    }
    let entry = parts.get(next);
    if entry.place != checked.place(at) {
        return Ok(next);
    }
    statements.push(part_statement(alloc, checked, at, entry.part)?)?;
    Ok(next + 1)
}

/// A formula with its part: the conjecture stays one, and a premise becomes an axiom.
fn part_statement(
    alloc: Global,
    checked: &Checked,
    at: usize,
    part: Part,
) -> Result<Statement, Memory>
    requires different { HasDifferentNames checked.now.signature }
    requires formula { at < length checked.now.formulas }
    ensures { IfOk result (spec.IsStatementAt checked.now at part) }
{
    let label = checked.label(at).bytes();
    let root = checked.root(at);
    match part {
        Part::Premise(scope) => {
            let made = translate_closed(alloc, checked, scope, root)?;
            formula_statement(alloc, label, b"axiom", made)
        }
        Part::Conjecture(scope) => {
            let made = translate_closed(alloc, checked, scope, root)?;
            formula_statement(alloc, label, b"conjecture", made)
        }
    }
}
