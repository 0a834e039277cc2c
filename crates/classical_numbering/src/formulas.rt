//! Formulas become cells.
ghost use Rattle.std.specs.Prelude.{◌≡◌, ◌++◌, ◌∷◌, [], IfOk, OnOk};
ghost use Rattle.nxf_tree.specs.Shapes.{Quant1};
ghost use Rattle.nxf_tree.specs.declared.tree.Formula as formulas;
ghost use Rattle.formula_cells.specs.Putting.{Puts, PutsAll};
ghost use Rattle.classical_numbering.specs.steps.Numbering.{HasSort, IsSortedUnder, AreSortedUnder, NamesFormula, NamesFormulas, PutsSides};

use crate::levels::enter;
use crate::terms::{number_term, number_terms};
use formula_cells::Cells;
use interpretation_parts::Known;
use nxf_base::{List, Memory, Text};
use nxf_tree::{Formula, Quantifier, SortName, Term};
use std::alloc::Global;

/// A predicate with its arguments, as cells.
fn number_atom(
    alloc: Global,
    names: &Known<'_>,
    binders: &[Text],
    cells: &mut Cells,
    name: &Text,
    terms: &List<Term>,
) -> Result<usize, Memory>
    requires { IsSortedUnder names.now.over.now binders.now (formulas.Atom name.now terms.now) }
    ensures { let atom = formulas.Atom name.now terms.now in
        IfOk result (Puts (NamesFormula names.now.over.now binders.now atom) cells.old cells.new) }
{
    let Some(number) = names.symbol(name) else {
        unreachable!();
    };
    let args = number_terms(alloc, names, binders, cells, terms.as_slice())?;
    cells.put_atom(number, args.as_slice())
}

/// `$distinct` with its arguments, as cells. It is the predicate with number 0.
fn number_distinct(
    alloc: Global,
    names: &Known<'_>,
    binders: &[Text],
    cells: &mut Cells,
    terms: &List<Term>,
) -> Result<usize, Memory>
    requires { IsSortedUnder names.now.over.now binders.now (formulas.Distinct terms.now) }
    ensures { let distinct = formulas.Distinct terms.now in
        IfOk result (Puts (NamesFormula names.now.over.now binders.now distinct) cells.old cells.new) }
{
    let args = number_terms(alloc, names, binders, cells, terms.as_slice())?;
    cells.put_atom(0, args.as_slice())
}

/// The two sides of an equation, as cells.
fn number_sides(
    alloc: Global,
    names: &Known<'_>,
    binders: &[Text],
    cells: &mut Cells,
    left: &Term,
    right: &Term,
) -> Result<(usize, usize), Memory>
    requires left { HasSort names.now.over.now binders.now left.now }
    requires right { HasSort names.now.over.now binders.now right.now }
    ensures { IfOk result (PutsSides names.now.over.now binders.now left.now right.now cells.old cells.new) }
{
    let left = number_term(alloc, names, binders, cells, left)?;
    let right = number_term(alloc, names, binders, cells, right)?;
    Ok((left, right))
}

/// A formula as cells. `binders` are the variables of the enclosing quantifiers from the outside in, and stay as they are.
#[cycle(number_formula)]
pub(crate) fn number_formula(
    alloc: Global,
    names: &Known<'_>,
    binders: &mut Vec<Text>,
    cells: &mut Cells,
    formula: &Formula,
) -> Result<usize, Memory>
    requires { IsSortedUnder names.now.over.now binders.old.items formula.now }
    ensures put { IfOk result (Puts (NamesFormula names.now.over.now binders.old.items formula.now) cells.old cells.new) }
    ensures kept { OnOk result (binders.new.items ≡ binders.old.items) }
{
    match formula {
        Formula::True => cells.put_true(),
        Formula::False => cells.put_false(),
        Formula::Atom(name, terms) => {
            number_atom(alloc, names, binders.as_slice(), cells, name, terms)
        }
        Formula::Same(left, right) => {
            let (left, right) = number_sides(
                alloc,
                names,
                binders.as_slice(),
                cells,
                left.get(),
                right.get(),
            )?;
            cells.put_same(left, right)
        }
        Formula::Differ(left, right) => {
            let (left, right) = number_sides(
                alloc,
                names,
                binders.as_slice(),
                cells,
                left.get(),
                right.get(),
            )?;
            cells.put_differ(left, right)
        }
        Formula::Not(part) => {
            let part = number_formula(alloc, names, binders, cells, part.get())?;
            cells.put_not(part)
        }
        Formula::And(parts) => {
            let parts = number_formulas(alloc, names, binders, cells, parts.as_slice())?;
            cells.put_and(parts.as_slice())
        }
        Formula::Or(parts) => {
            let parts = number_formulas(alloc, names, binders, cells, parts.as_slice())?;
            cells.put_or(parts.as_slice())
        }
        Formula::Pair(op, left, right) => {
            let left = number_formula(alloc, names, binders, cells, left.get())?;
            let right = number_formula(alloc, names, binders, cells, right.get())?;
            cells.put_pair(*op, left, right)
        }
        Formula::Quant(quantifier, name, sort, body) => {
            number_quantified(
                alloc,
                names,
                binders,
                cells,
                *quantifier,
                name,
                sort,
                body.get(),
            )
        }
        Formula::Distinct(terms) => {
            number_distinct(alloc, names, binders.as_slice(), cells, terms)
        }
        Formula::Modal(_, _, _) => unreachable!(),
    }
}

/// A formula under one more quantifier, as cells.
#[cycle(number_formula)]
fn number_quantified(
    alloc: Global,
    names: &Known<'_>,
    binders: &mut Vec<Text>,
    cells: &mut Cells,
    quantifier: Quantifier,
    name: &Text,
    sort: &SortName,
    body: &Formula,
) -> Result<usize, Memory>
    requires { IsSortedUnder names.now.over.now binders.old.items (Quant1 quantifier name.now sort.now body.now) }
    ensures put { let formula = Quant1 quantifier name.now sort.now body.now in
        IfOk result (Puts (NamesFormula names.now.over.now binders.old.items formula) cells.old cells.new) }
    ensures kept { OnOk result (binders.new.items ≡ binders.old.items) }
{
    let Some(number) = names.sort(sort) else {
        unreachable!();
    };
    enter(alloc, binders, name)?;
    let body = number_formula(alloc, names, binders, cells, body)?;
    let _ = binders.pop();
    cells.put_quant(alloc, quantifier, number, name, body)
}

/// Formulas as cells, in their order.
#[cycle(number_formula)]
fn number_formulas(
    alloc: Global,
    names: &Known<'_>,
    binders: &mut Vec<Text>,
    cells: &mut Cells,
    formulas: &[Formula],
) -> Result<List<usize>, Memory>
    requires { AreSortedUnder names.now.over.now binders.old.items formulas.now }
    ensures put { IfOk result (PutsAll (NamesFormulas names.now.over.now binders.old.items formulas.now) cells.old cells.new) }
    ensures kept { OnOk result (binders.new.items ≡ binders.old.items) }
{
    let mut parts = List::with_capacity(alloc, formulas.len())?;
    for formula in formulas {
        let part = number_formula(alloc, names, binders, cells, formula)?;
        parts.push(part)?;
    }
    Ok(parts)
}
