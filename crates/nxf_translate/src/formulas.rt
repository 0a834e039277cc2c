//! The translation of formulas.
ghost use Rattle.std.specs.Prelude.{◌≡◌, ℕ, ◌<◌, ◌≤◌, List, [], ◌∷◌, ◌++◌, map, length, IfOk, OnOk};
ghost use Rattle.std.specs.List.{All};
ghost use Rattle.nxf_tree.specs.Embedding.{guarded, over_worlds};
ghost use Rattle.nxf_tree.specs.Names as spelled;
ghost use Rattle.nxf_tree.specs.Shapes.{Quant1};
ghost use Rattle.nxf_tree.specs.Signature.{constant_regime};
ghost use Rattle.nxf_tree.specs.WellFormed.{HasDifferentNames};
ghost use Rattle.nxf_tree.specs.declared.tree.Formula.{Atom};
ghost use Rattle.nxf_tree.specs.declared.tree.Term.{Var};
ghost use Rattle.numbered_definitions.specs.declared.node.Node as spec;
ghost use Rattle.numbered_definitions.specs.NamedForm.{NodeNot, NodePair, NodeQuant, NodeModal};
ghost use Rattle.formula_cells.specs.Stored as stored;
ghost use Rattle.formula_cells.specs.Stored.{IsFormula, IsPart, IsArgument, node_at, term_at};
ghost use Rattle.nxf_translate.specs.steps.Forms.{HasForm, HasForms, HasTerm, IsTerm, IsForm, AreForms, IsEmbedded};
ghost use Rattle.nxf_translate.specs.steps.Place.{term_of};

use crate::place::{Place, place_term};
use crate::terms::{front, translate_term, translate_terms};
use classical_syntax::{
    existence_name, is_constant_regime, relation_name, two_terms, user_name, user_sort,
    user_variable, world_sort, world_variable,
};
use formula_cells::{Cell, Checked};
use nxf_base::{List, Memory, Text};
use nxf_tree::{
    Formula, IndexName, Mode, Op, Quantifier, Scope, SortEntry, Term, both, equation, inequation,
    negated, pair, quantified,
};
use std::alloc::Global;

/// Where a formula is translated: over which checked file, at which world, and with which number for the next variable for a
/// world.
#[derive(Clone, Copy)]
struct Here<'a> {
    checked: &'a Checked,
    place: Place,
    next: u64,
}

/// The translation of the formula of a cell. `binders` are the variables of the enclosing quantifiers from the outside in,
/// and stay as they are.
#[cycle(translate)]
fn translate(
    alloc: Global,
    here: Here<'_>,
    binders: &mut Vec<Text>,
    at: usize,
) -> Result<Formula, Memory>
    requires different { HasDifferentNames here.checked.now.signature }
    requires kind { IsFormula here.checked.now.stored at }
    requires named { HasForm here.checked.now.signature binders.old.items (node_at here.checked.now.stored at) }
    ensures translated { let checked = here.entry.checked.now in
        IfOk result (IsForm checked.signature binders.old.items (term_of here.entry.place) here.entry.next (node_at checked.stored at)) }
    ensures kept { OnOk result (binders.new.items ≡ binders.old.items) }
{
    match here.checked.cell(at) {
        Cell::True => Ok(Formula::True),
        Cell::False => Ok(Formula::False),
        Cell::Atom(number, span) => {
            let args = here.checked.parts(*span);
            atom(alloc, here, binders.as_slice(), *number, at, args)
        }
        Cell::Same(left, right) => same(alloc, here, binders.as_slice(), *left, *right),
        Cell::Differ(left, right) => differ(alloc, here, binders.as_slice(), *left, *right),
        Cell::Not(part) => negation(alloc, here, binders, *part),
        Cell::And(span) => {
            let parts = here.checked.parts(*span);
            Ok(Formula::And(translate_all(alloc, here, binders, at, parts)?))
        }
        Cell::Or(span) => {
            let parts = here.checked.parts(*span);
            Ok(Formula::Or(translate_all(alloc, here, binders, at, parts)?))
        }
        Cell::Pair(op, left, right) => two_sides(alloc, here, binders, *op, *left, *right),
        Cell::Quant(quantifier, sort, variable, body) => {
            let variable = here.checked.name(*variable);
            quantification(alloc, here, binders, *quantifier, *sort, variable, *body)
        }
        Cell::Modal(mode, index, body) => modality(alloc, here, binders, *mode, *index, *body),
        Cell::Bound(_) => unreachable!(),
        Cell::App(_, _) => unreachable!(),
    }
}

/// An atom over the terms of some cells that stand before a place.
fn atom(
    alloc: Global,
    here: Here<'_>,
    binders: &[Text],
    number: u32,
    before: usize,
    args: &[usize],
) -> Result<Formula, Memory>
    requires different { HasDifferentNames here.checked.now.signature }
    requires kind { All (IsArgument here.checked.now.stored.cells before) args.now }
    requires within { before ≤ length here.checked.now.stored.cells }
    requires named { let terms = map (term_at here.checked.now.stored) args.now in
        HasForm here.checked.now.signature binders.now (spec.Atom number terms) }
    ensures { let checked = here.entry.checked.now in let atom = spec.Atom number (map (term_at checked.stored) args.now) in
        IfOk result (λ f. (d : ℕ) → IsForm checked.signature binders.now (term_of here.entry.place) d atom f) }
{
    let symbol = here.checked.signature().symbols.get(number as usize);
    let name = user_name(alloc, &symbol.name)?;
    let mut arguments = front(alloc, true, here.place, args.len())?;
    translate_terms(
        alloc,
        here.checked,
        binders,
        here.place,
        before,
        args,
        &mut arguments,
    )?;
    Ok(Formula::Atom(name, arguments))
}

/// The translations of the two sides of an equation.
fn sides(
    alloc: Global,
    here: Here<'_>,
    binders: &[Text],
    left: usize,
    right: usize,
) -> Result<(Term, Term), Memory>
    requires different { HasDifferentNames here.checked.now.signature }
    requires left_kind { stored.IsTerm here.checked.now.stored left }
    requires right_kind { stored.IsTerm here.checked.now.stored right }
    requires left { HasTerm here.checked.now.signature binders.now (term_at here.checked.now.stored left) }
    requires right { HasTerm here.checked.now.signature binders.now (term_at here.checked.now.stored right) }
    ensures left { let checked = here.entry.checked.now in
        IfOk result (λ terms. IsTerm checked.signature binders.now (term_of here.entry.place) (term_at checked.stored left) terms.0) }
    ensures right { let checked = here.entry.checked.now in
        IfOk result (λ terms. IsTerm checked.signature binders.now (term_of here.entry.place) (term_at checked.stored right) terms.1) }
{
    let left = translate_term(alloc, here.checked, binders, here.place, left)?;
    let right = translate_term(alloc, here.checked, binders, here.place, right)?;
    Ok((left, right))
}

fn same(
    alloc: Global,
    here: Here<'_>,
    binders: &[Text],
    left: usize,
    right: usize,
) -> Result<Formula, Memory>
    requires different { HasDifferentNames here.checked.now.signature }
    requires left { stored.IsTerm here.checked.now.stored left }
    requires right { stored.IsTerm here.checked.now.stored right }
    requires named { let term = term_at here.checked.now.stored in
        HasForm here.checked.now.signature binders.now (spec.Same (term left) (term right)) }
    ensures { let checked = here.entry.checked.now in let same = spec.Same (term_at checked.stored left) (term_at checked.stored right) in
        IfOk result (λ f. (d : ℕ) → IsForm checked.signature binders.now (term_of here.entry.place) d same f) }
{
    let (left, right) = sides(alloc, here, binders, left, right)?;
    equation(alloc, left, right)
}

fn differ(
    alloc: Global,
    here: Here<'_>,
    binders: &[Text],
    left: usize,
    right: usize,
) -> Result<Formula, Memory>
    requires different { HasDifferentNames here.checked.now.signature }
    requires left { stored.IsTerm here.checked.now.stored left }
    requires right { stored.IsTerm here.checked.now.stored right }
    requires named { let term = term_at here.checked.now.stored in
        HasForm here.checked.now.signature binders.now (spec.Differ (term left) (term right)) }
    ensures { let checked = here.entry.checked.now in let differ = spec.Differ (term_at checked.stored left) (term_at checked.stored right) in
        IfOk result (λ f. (d : ℕ) → IsForm checked.signature binders.now (term_of here.entry.place) d differ f) }
{
    let (left, right) = sides(alloc, here, binders, left, right)?;
    inequation(alloc, left, right)
}

#[cycle(translate)]
fn negation(
    alloc: Global,
    here: Here<'_>,
    binders: &mut Vec<Text>,
    part: usize,
) -> Result<Formula, Memory>
    requires different { HasDifferentNames here.checked.now.signature }
    requires kind { IsFormula here.checked.now.stored part }
    requires named { HasForm here.checked.now.signature binders.old.items (NodeNot (node_at here.checked.now.stored part)) }
    ensures translated { let checked = here.entry.checked.now in let node = NodeNot (node_at checked.stored part) in
        IfOk result (IsForm checked.signature binders.old.items (term_of here.entry.place) here.entry.next node) }
    ensures kept { OnOk result (binders.new.items ≡ binders.old.items) }
{
    let part = translate(alloc, here, binders, part)?;
    negated(alloc, part)
}

/// The translations of the formulas of some cells that stand before a place.
#[cycle(translate)]
fn translate_all(
    alloc: Global,
    here: Here<'_>,
    binders: &mut Vec<Text>,
    before: usize,
    parts: &[usize],
) -> Result<List<Formula>, Memory>
    requires different { HasDifferentNames here.checked.now.signature }
    requires kind { All (IsPart here.checked.now.stored.cells before) parts.now }
    requires within { before ≤ length here.checked.now.stored.cells }
    requires named { HasForms here.checked.now.signature binders.old.items (map (node_at here.checked.now.stored) parts.now) }
    ensures translated { let checked = here.entry.checked.now in let nodes = map (node_at checked.stored) parts.now in
        IfOk result (AreForms checked.signature binders.old.items (term_of here.entry.place) here.entry.next nodes) }
    ensures kept { OnOk result (binders.new.items ≡ binders.old.items) }
{
    let mut made = List::with_capacity(alloc, parts.len())?;
    for part in parts {
        let translated = translate(alloc, here, binders, *part)?;
        made.push(translated)?;
    }
    Ok(made)
}

#[cycle(translate)]
fn two_sides(
    alloc: Global,
    here: Here<'_>,
    binders: &mut Vec<Text>,
    op: Op,
    left: usize,
    right: usize,
) -> Result<Formula, Memory>
    requires different { HasDifferentNames here.checked.now.signature }
    requires left { IsFormula here.checked.now.stored left }
    requires right { IsFormula here.checked.now.stored right }
    requires named { let node = node_at here.checked.now.stored in
        HasForm here.checked.now.signature binders.old.items (NodePair op (node left) (node right)) }
    ensures translated { let checked = here.entry.checked.now in let node = NodePair op (node_at checked.stored left) (node_at checked.stored right) in
        IfOk result (IsForm checked.signature binders.old.items (term_of here.entry.place) here.entry.next node) }
    ensures kept { OnOk result (binders.new.items ≡ binders.old.items) }
{
    let left = translate(alloc, here, binders, left)?;
    let right = translate(alloc, here, binders, right)?;
    pair(alloc, op, left, right)
}

#[cycle(translate)]
fn quantification(
    alloc: Global,
    here: Here<'_>,
    binders: &mut Vec<Text>,
    quantifier: Quantifier,
    sort: u32,
    variable: &Text,
    body: usize,
) -> Result<Formula, Memory>
    requires different { HasDifferentNames here.checked.now.signature }
    requires kind { IsFormula here.checked.now.stored body }
    requires named { let node = NodeQuant quantifier sort variable.now (node_at here.checked.now.stored body) in
        HasForm here.checked.now.signature binders.old.items node }
    ensures translated { let checked = here.entry.checked.now in let node = NodeQuant quantifier sort variable.now (node_at checked.stored body) in
        IfOk result (IsForm checked.signature binders.old.items (term_of here.entry.place) here.entry.next node) }
    ensures kept { OnOk result (binders.new.items ≡ binders.old.items) }
{
    enter(alloc, binders, variable)?;
    let body = translate(alloc, here, binders, body)?;
    let _ = binders.pop();
    let sort = here.checked.signature().sorts.get(sort as usize);
    quantify(alloc, sort, here.place, quantifier, variable, body)
}

/// Enters a quantifier: its variable is the last binder.
fn enter(alloc: Global, binders: &mut Vec<Text>, variable: &Text) -> Result<(), Memory>
    ensures { OnOk result (binders.new.items ≡ binders.old.items ++ variable.now ∷ []) }
{
    binders.push(variable.copy(alloc)?)?;
    Ok(())
}

/// A quantifier over a translated body: where the sort isn't constant, only what exists at the world counts.
fn quantify(
    alloc: Global,
    sort: &SortEntry,
    place: Place,
    quantifier: Quantifier,
    variable: &Text,
    body: Formula,
) -> Result<Formula, Memory>
    ensures { IfOk result (λ f. f ≡ Quant1 quantifier (spelled.user_variable variable.now) (spelled.user_sort sort.now.name) (guarded (constant_regime sort.now.regime) quantifier (Atom (spelled.existence_name sort.now.name) (term_of place ∷ Var (spelled.user_variable variable.now) ∷ [])) body)) }
{
    let body = guard_body(alloc, sort, place, quantifier, variable, body)?;
    let variable = user_variable(alloc, variable)?;
    let sort = user_sort(alloc, &sort.name)?;
    quantified(alloc, quantifier, variable, sort, body)
}

fn guard_body(
    alloc: Global,
    sort: &SortEntry,
    place: Place,
    quantifier: Quantifier,
    variable: &Text,
    body: Formula,
) -> Result<Formula, Memory>
    ensures { IfOk result (λ f. f ≡ guarded (constant_regime sort.now.regime) quantifier (Atom (spelled.existence_name sort.now.name) (term_of place ∷ Var (spelled.user_variable variable.now) ∷ [])) body) }
{
    if is_constant_regime(sort.regime) {
        return Ok(body);
    }
    let there = existence(alloc, sort, place, variable)?;
    match quantifier {
        Quantifier::All => pair(alloc, Op::Implies, there, body),
        Quantifier::Exists => both(alloc, there, body),
    }
}

/// The atom that says that the variable's value exists at the world.
fn existence(
    alloc: Global,
    sort: &SortEntry,
    place: Place,
    variable: &Text,
) -> Result<Formula, Memory>
    ensures { IfOk result (λ f. f ≡ Atom (spelled.existence_name sort.now.name) (term_of place ∷ Var (spelled.user_variable variable.now) ∷ [])) }
{
    let name = existence_name(alloc, &sort.name)?;
    let at = place_term(alloc, place)?;
    let what = Term::Var(user_variable(alloc, variable)?);
    Ok(Formula::Atom(name, two_terms(alloc, at, what)?))
}

#[cycle(translate)]
fn modality(
    alloc: Global,
    here: Here<'_>,
    binders: &mut Vec<Text>,
    mode: Mode,
    index: u32,
    body: usize,
) -> Result<Formula, Memory>
    requires different { HasDifferentNames here.checked.now.signature }
    requires kind { IsFormula here.checked.now.stored body }
    requires named { HasForm here.checked.now.signature binders.old.items (NodeModal mode index (node_at here.checked.now.stored body)) }
    ensures translated { let checked = here.entry.checked.now in let node = NodeModal mode index (node_at checked.stored body) in
        IfOk result (IsForm checked.signature binders.old.items (term_of here.entry.place) here.entry.next node) }
    ensures kept { OnOk result (binders.new.items ≡ binders.old.items) }
{
    // no memory holds a formula that is nested as deep as numbers go
    let Some(next) = here.next.checked_add(1) else {
        return Err(Memory);
    };
    let there = Here {
        checked: here.checked,
        place: Place::Reached(here.next),
        next,
    };
    let body = translate(alloc, there, binders, body)?;
    let name = &here.checked.signature().indexes.get(index as usize).name;
    reached(alloc, name, here.place, here.next, mode, body)
}

/// What holds at each world that is reached, or at some of them.
fn reached(
    alloc: Global,
    index: &IndexName,
    place: Place,
    next: u64,
    mode: Mode,
    body: Formula,
) -> Result<Formula, Memory>
    ensures { IfOk result (λ f. f ≡ over_worlds mode next (Atom (spelled.relation_name index.now) (term_of place ∷ Var (spelled.world_variable next) ∷ [])) body) }
{
    let step = access(alloc, index, place, next)?;
    let variable = world_variable(alloc, next)?;
    let sort = world_sort(alloc)?;
    match mode {
        Mode::Box => {
            let guarded = pair(alloc, Op::Implies, step, body)?;
            quantified(alloc, Quantifier::All, variable, sort, guarded)
        }
        Mode::Dia => {
            let guarded = both(alloc, step, body)?;
            quantified(alloc, Quantifier::Exists, variable, sort, guarded)
        }
    }
}

/// The atom that says that the next world is reached.
fn access(alloc: Global, index: &IndexName, place: Place, next: u64) -> Result<Formula, Memory>
    ensures { IfOk result (λ f. f ≡ Atom (spelled.relation_name index.now) (term_of place ∷ Var (spelled.world_variable next) ∷ [])) }
{
    let name = relation_name(alloc, index)?;
    let from = place_term(alloc, place)?;
    let to = Term::Var(world_variable(alloc, next)?);
    Ok(Formula::Atom(name, two_terms(alloc, from, to)?))
}

/// The translation of the whole formula of a cell: at the actual world where it is local, for every world where it is
/// global.
pub fn translate_closed(
    alloc: Global,
    checked: &Checked,
    scope: Scope,
    at: usize,
) -> Result<Formula, Memory>
    requires different { HasDifferentNames checked.now.signature }
    requires kind { IsFormula checked.now.stored at }
    requires named { HasForm checked.now.signature [] (node_at checked.now.stored at) }
    ensures { IfOk result (IsEmbedded checked.now.signature scope (node_at checked.now.stored at)) }
{
    let mut binders = Vec::new(alloc);
    match scope {
        Scope::Local => {
            let here = Here {
                checked,
                place: Place::Actual,
                next: 0,
            };
            translate(alloc, here, &mut binders, at)
        }
        Scope::Global => {
            let there = Here {
                checked,
                place: Place::Reached(0),
                next: 1,
            };
            let body = translate(alloc, there, &mut binders, at)?;
            let variable = world_variable(alloc, 0)?;
            let sort = world_sort(alloc)?;
            quantified(alloc, Quantifier::All, variable, sort, body)
        }
    }
}
