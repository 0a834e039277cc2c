//! The translation of terms.
ghost use Rattle.std.specs.Prelude.{◌≡◌, ℕ, List, [], ◌∷◌, ◌++◌, ◌<◌, ◌≤◌, Some, length, map, IfOk, OnOk};
ghost use Rattle.std.specs.Option.{option_map};
ghost use Rattle.nxf_tree.specs.Embedding.{at_world, st_term};
ghost use Rattle.nxf_tree.specs.WellFormed.{HasDifferentNames};
ghost use Rattle.nxf_tree.specs.declared.tree.Term.{Term};
ghost use Rattle.numbered_definitions.specs.NamedForm.{named_terms};
ghost use Rattle.formula_cells.specs.Stored as stored;
ghost use Rattle.formula_cells.specs.Stored.{IsArgument, term_at};
ghost use Rattle.std.specs.List.{All};
ghost use Rattle.nxf_translate.specs.steps.Forms.{HasTerm, HasTerms, IsTerm, AreTerms};
ghost use Rattle.nxf_translate.specs.steps.Place.{term_of};

use crate::place::{Place, place_term};
use classical_syntax::{is_flexible_designation, user_name, user_variable};
use formula_cells::{Cell, Checked};
use nxf_base::{List, Memory, Text};
use nxf_tree::Term;
use std::alloc::Global;

/// The translation of the term of a cell. `binders` are the variables of the enclosing quantifiers from the outside in.
#[cycle(translate_term)]
pub(crate) fn translate_term(
    alloc: Global,
    checked: &Checked,
    binders: &[Text],
    place: Place,
    at: usize,
) -> Result<Term, Memory>
    requires different { HasDifferentNames checked.now.signature }
    requires kind { stored.IsTerm checked.now.stored at }
    requires named { HasTerm checked.now.signature binders.now (term_at checked.now.stored at) }
    ensures { IfOk result (IsTerm checked.now.signature binders.now (term_of place) (term_at checked.now.stored at)) }
{
    match checked.cell(at) {
        Cell::Bound(level) => {
            let name = user_variable(alloc, &binders[*level as usize])?;
            Ok(Term::Var(name))
        }
        Cell::App(number, span) => {
            let args = checked.parts(*span);
            let symbol = checked.signature().symbols.get(*number as usize);
            let name = user_name(alloc, &symbol.name)?;
            let flexible = is_flexible_designation(symbol.designation);
            let mut arguments = front(alloc, flexible, place, args.len())?;
            translate_terms(alloc, checked, binders, place, at, args, &mut arguments)?;
            Ok(Term::App(name, arguments))
        }
        _ => unreachable!(),
    }
}

/// Appends the translations of the terms of some cells that stand before a place.
#[cycle(translate_term)]
pub(crate) fn translate_terms(
    alloc: Global,
    checked: &Checked,
    binders: &[Text],
    place: Place,
    before: usize,
    args: &[usize],
    made: &mut List<Term>,
) -> Result<(), Memory>
    requires different { HasDifferentNames checked.now.signature }
    requires kind { All (IsArgument checked.now.stored.cells before) args.now }
    requires within { before ≤ length checked.now.stored.cells }
    requires named { HasTerms checked.now.signature binders.now (map (term_at checked.now.stored) args.now) }
    ensures { OnOk result ((us : List Term) → named_terms checked.now.signature binders.now (map (term_at checked.now.stored) args.now) ≡ Some us → made.new ≡ made.old ++ map (st_term checked.now.signature (term_of place)) us) }
{
    for arg in args {
        let translated = translate_term(alloc, checked, binders, place, *arg)?;
        made.push(translated)?;
    }
    Ok(())
}

/// The arguments of a symbol before they are translated: the world where the symbol depends on it, and else none. There is
/// room for that many more.
pub(crate) fn front(
    alloc: Global,
    flexible: bool,
    place: Place,
    room: usize,
) -> Result<List<Term>, Memory>
    ensures { IfOk result (λ terms. terms ≡ at_world flexible (term_of place) []) }
{
    if !flexible {
        return List::with_capacity(alloc, room);
    }
    let mut terms = List::with_capacity(alloc, room.saturating_add(1))?;
    terms.push(place_term(alloc, place)?)?;
    Ok(terms)
}
