//! Formulas become numbers.

ghost use Rattle.std.specs.Prelude.{◌≡◌, OnOk, MatchOption, ◌∷◌, true, Some};
ghost use Rattle.nxf_base.specs.declared.status.SortKind.TheVariants.{UnknownSort};
ghost use Rattle.nxf_tree.specs.Sorting.{modal_language};
ghost use Rattle.nxf_tree.specs.Shapes.{Quant1, Modal1};
ghost use Rattle.nxf_tree.specs.SortFaults.{sort_text};
ghost use Rattle.numbered_definitions.specs.NamedForm.{index_name};
ghost use Rattle.nxf_sorts.specs.steps.Numbering.{IsFault, IsGoodSignature, IsScope, HasNoSort, FindsNumber, PutsFormula, PutsFormulas};

use crate::binders::Binders;
use crate::fault::{Fault, fault_of};
use crate::number::{number_sides, number_terms, put, room, used_predicate};
use formula_cells::Cells;
use nxf_base::{List, SortKind, Text};
use nxf_signatures::Names;
use nxf_tree::{Formula, IndexName, Mode, Quantifier, SortName, Term};
use std::alloc::Global;

/// The fault of a sort that the file has not.
pub fn unknown_sort(alloc: Global, sort: &SortName) -> Fault
    ensures { IsFault (Some (UnknownSort, sort_text sort.now)) result }
{
    match sort {
        SortName::Individual => fault_of(alloc, SortKind::UnknownSort, b"$i"),
        SortName::User(name) => fault_of(alloc, SortKind::UnknownSort, name.bytes()),
    }
}

/// The number of a sort, or None where the file has not got it.
pub fn found_sort(names: &Names, sort: &SortName) -> Option<u32>
    ensures { MatchOption result (HasNoSort names.now.signature sort.now) (FindsNumber names.now.signature sort.now) }
{
    names.sort(sort)
}

/// The number of an index. The signature of a file has each index of the file.
fn found_index(names: &Names, index: &IndexName) -> u32
    ensures { (modal_language names.now.signature).knows_index index.now ≡ true → index_name names.now.signature result ≡ Some index.now }
{
    match names.index(index) {
        Some(number) => number,
        None => u32::MAX,
    }
}

/// A predicate with its arguments, as cells.
fn number_atom(
    alloc: Global,
    names: &Names,
    binders: &Binders,
    cells: &mut Cells,
    name: &Text,
    terms: &List<Term>,
) -> Result<usize, Fault>
    requires good { IsGoodSignature names.now.signature }
    requires scope { IsScope names.now.signature binders.now }
    ensures { PutsFormula names.now binders.now (Formula.Atom name.now terms.now) cells.old cells.new result }
{
    let (number, sorts) = used_predicate(alloc, names, name, terms.len())?;
    let args = number_terms(alloc, names, binders, cells, name, sorts, terms.as_slice())?;
    let at = cells.put_atom(number, args.as_slice())?;
    Ok(at)
}

/// A formula as cells, with numbers for names; or its first fault. Where there is none, the binders are as before.
#[cycle(number_formula)]
pub fn number_formula(
    alloc: Global,
    names: &Names,
    binders: &mut Binders,
    cells: &mut Cells,
    formula: &Formula,
) -> Result<usize, Fault>
    requires good { IsGoodSignature names.now.signature }
    requires scope { IsScope names.now.signature binders.old }
    ensures value { PutsFormula names.now binders.old formula.now cells.old cells.new result }
    ensures kept { OnOk result (binders.new ≡ binders.old) }
{
    match formula {
        Formula::True => {
            let at = cells.put_true()?;
            Ok(at)
        }
        Formula::False => {
            let at = cells.put_false()?;
            Ok(at)
        }
        Formula::Atom(name, terms) => number_atom(alloc, names, binders, cells, name, terms),
        Formula::Same(left, right) => {
            let (a, b) = number_sides(alloc, names, binders, cells, left, right)?;
            let at = cells.put_same(a, b)?;
            Ok(at)
        }
        Formula::Differ(left, right) => {
            let (a, b) = number_sides(alloc, names, binders, cells, left, right)?;
            let at = cells.put_differ(a, b)?;
            Ok(at)
        }
        Formula::Not(part) => {
            let part = number_formula(alloc, names, binders, cells, part.get())?;
            let at = cells.put_not(part)?;
            Ok(at)
        }
        Formula::And(parts) => {
            let parts = number_formulas(alloc, names, binders, cells, parts)?;
            let at = cells.put_and(parts.as_slice())?;
            Ok(at)
        }
        Formula::Or(parts) => {
            let parts = number_formulas(alloc, names, binders, cells, parts)?;
            let at = cells.put_or(parts.as_slice())?;
            Ok(at)
        }
        Formula::Pair(op, left, right) => {
            let a = number_formula(alloc, names, binders, cells, left.get())?;
            let b = number_formula(alloc, names, binders, cells, right.get())?;
            let at = cells.put_pair(*op, a, b)?;
            Ok(at)
        }
        Formula::Quant(quantifier, name, sort, body) => number_quantified(
            alloc,
            names,
            binders,
            cells,
            *quantifier,
            name,
            sort,
            body.get(),
        ),
        Formula::Modal(mode, index, body) => number_modal(
            alloc,
            names,
            binders,
            cells,
            *mode,
            index,
            body.get(),
        ),
        Formula::Distinct(_) => Err(fault_of(alloc, SortKind::Mismatch, b"$distinct")),
    }
}

#[cycle(number_formula)]
fn number_quantified(
    alloc: Global,
    names: &Names,
    binders: &mut Binders,
    cells: &mut Cells,
    quantifier: Quantifier,
    name: &Text,
    sort: &SortName,
    body: &Formula,
) -> Result<usize, Fault>
    requires good { IsGoodSignature names.now.signature }
    requires scope { IsScope names.now.signature binders.old }
    ensures value { PutsFormula names.now binders.old (Quant1 quantifier name.now sort.now body.now) cells.old cells.new result }
    ensures kept { OnOk result (binders.new ≡ binders.old) }
{
    match found_sort(names, sort) {
        None => Err(unknown_sort(alloc, sort)),
        Some(number) => {
            let part = number_under(alloc, names, binders, cells, name, number, body)?;
            let at = cells.put_quant(alloc, quantifier, number, name, part)?;
            Ok(at)
        }
    }
}

/// A formula under one more binder.
#[cycle(number_formula)]
fn number_under(
    alloc: Global,
    names: &Names,
    binders: &mut Binders,
    cells: &mut Cells,
    name: &Text,
    sort: u32,
    body: &Formula,
) -> Result<usize, Fault>
    requires good { IsGoodSignature names.now.signature }
    requires scope { IsScope names.now.signature ((name.now, sort) ∷ binders.old) }
    ensures value { PutsFormula names.now ((name.now, sort) ∷ binders.old) body.now cells.old cells.new result }
    ensures kept { OnOk result (binders.new ≡ binders.old) }
{
    binders.enter(alloc, name, sort)?;
    let at = number_formula(alloc, names, binders, cells, body)?;
    binders.leave();
    Ok(at)
}

#[cycle(number_formula)]
fn number_modal(
    alloc: Global,
    names: &Names,
    binders: &mut Binders,
    cells: &mut Cells,
    mode: Mode,
    index: &IndexName,
    body: &Formula,
) -> Result<usize, Fault>
    requires good { IsGoodSignature names.now.signature }
    requires scope { IsScope names.now.signature binders.old }
    ensures value { PutsFormula names.now binders.old (Modal1 mode index.now body.now) cells.old cells.new result }
    ensures kept { OnOk result (binders.new ≡ binders.old) }
{
    let number = found_index(names, index);
    let part = number_formula(alloc, names, binders, cells, body)?;
    let at = cells.put_modal(mode, number, part)?;
    Ok(at)
}

/// Formulas from left to right, as cells.
#[cycle(number_formula)]
fn number_formulas(
    alloc: Global,
    names: &Names,
    binders: &mut Binders,
    cells: &mut Cells,
    formulas: &List<Formula>,
) -> Result<List<usize>, Fault>
    requires good { IsGoodSignature names.now.signature }
    requires scope { IsScope names.now.signature binders.old }
    ensures value { PutsFormulas names.now binders.old formulas.now cells.old cells.new result }
    ensures kept { OnOk result (binders.new ≡ binders.old) }
{
    let mut parts = room(alloc, formulas.len())?;
    for formula in formulas.as_slice() {
        let part = number_formula(alloc, names, binders, cells, formula)?;
        put(&mut parts, part)?;
    }
    Ok(parts)
}
