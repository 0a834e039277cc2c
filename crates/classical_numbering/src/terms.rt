//! Terms become cells.
ghost use Rattle.std.specs.Prelude.{IfOk};
ghost use Rattle.classical_numbering.specs.steps.Numbering.{HasSort, HaveSorts, NamesTerm, NamesTerms};
ghost use Rattle.formula_cells.specs.Putting.{PutsTerm, PutsTerms};

use crate::levels::put_variable;
use formula_cells::Cells;
use interpretation_parts::Known;
use nxf_base::{List, Memory, Text};
use nxf_tree::Term;
use std::alloc::Global;

/// A term as cells. `binders` are the variables of the enclosing quantifiers from the outside in.
#[cycle(number_term)]
pub(crate) fn number_term(
    alloc: Global,
    names: &Known<'_>,
    binders: &[Text],
    cells: &mut Cells,
    term: &Term,
) -> Result<usize, Memory>
    requires { HasSort names.now.over.now binders.now term.now }
    ensures { IfOk result (PutsTerm (NamesTerm names.now.over.now binders.now term.now) cells.old cells.new) }
{
    match term {
        Term::Var(name) => put_variable(binders, cells, name),
        Term::App(name, terms) => {
            let Some(number) = names.symbol(name) else {
                unreachable!();
            };
            let args = number_terms(alloc, names, binders, cells, terms.as_slice())?;
            cells.put_app(number, args.as_slice())
        }
    }
}

/// Terms as cells, in their order.
#[cycle(number_term)]
pub(crate) fn number_terms(
    alloc: Global,
    names: &Known<'_>,
    binders: &[Text],
    cells: &mut Cells,
    terms: &[Term],
) -> Result<List<usize>, Memory>
    requires { HaveSorts names.now.over.now binders.now terms.now }
    ensures { IfOk result (PutsTerms (NamesTerms names.now.over.now binders.now terms.now) cells.old cells.new) }
{
    let mut args = List::with_capacity(alloc, terms.len())?;
    for term in terms {
        let arg = number_term(alloc, names, binders, cells, term)?;
        args.push(arg)?;
    }
    Ok(args)
}
