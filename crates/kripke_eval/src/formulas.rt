//! Truth of formulas.
ghost use Rattle.std.specs.Prelude.{◌≡◌, ◌+◌, ◌*◌, ◌<◌, ◌≤◌, [], ◌∷◌, ◌++◌, length, map, take};
ghost use Rattle.std.specs.List.{All as Each};
ghost use Rattle.nxf_tree.specs.Kripke as meant;
ghost use Rattle.formula_cells.specs.Stored.{IsArgument, IsFormula, IsPart, IsTerm, node_at, term_at};
ghost use Rattle.kripke_evaluation_definitions.specs.NumberedDepth.{term_depth, terms_depth, node_depth, nodes_depth};
ghost use Rattle.kripke_eval.specs.steps.Cells.{have_same_value, sat_at, atom_holds, CellTermFits, CellFits, AtomFits, FitsEachElement, FitsEachWorld, some_has, any_element, any_world};

use crate::here::Here;
use crate::terms::{fill, value_at};
use formula_cells::Cell;
use nxf_tree::{Mode, Op, Quantifier};
use std::sync::ledger::Ledger;
use structure_views::Steps;

/// Whether a formula holds. The first `top` values of the stack are those of the enclosing quantifiers from the outside in,
/// and stay as they are; at each level of the formula there is room for a row of 1,000 values.
#[cycle(holds_at)]
pub(crate) fn holds_at<L: Ledger>(
    here: Here<'_>,
    at: usize,
    stack: &mut [u32],
    top: usize,
    room: &mut [u32],
    steps: &mut Steps<L>,
) -> bool
    requires formula { IsFormula here.checked.now.stored at }
    requires world_in { here.world < here.view.now.worlds }
    requires depth { top + node_depth (node_at here.checked.now.stored at) ≤ length stack.old }
    requires room { 1000 * node_depth (node_at here.checked.now.stored at) ≤ length room.old }
    requires fits { CellFits here.view.now here.checked.now here.world (take top stack.old) at }
    ensures value { result ≡ sat_at here.entry.view.now here.entry.checked.now here.entry.world (take top stack.old) at }
    ensures kept { take top stack.new ≡ take top stack.old }
{
    match here.checked.cell(at) {
        Cell::True => true,
        Cell::False => false,
        Cell::Atom(symbol, terms) => {
            let terms = here.checked.parts(*terms);
            atom(here, at, *symbol, terms, &stack[..top], room, steps)
        }
        Cell::Same(left, right) => same(here, *left, *right, &stack[..top], room, steps),
        Cell::Differ(left, right) => !same(here, *left, *right, &stack[..top], room, steps),
        Cell::Not(part) => !holds_at(here, *part, stack, top, room, steps),
        Cell::And(parts) => {
            let parts = here.checked.parts(*parts);
            !some_part(here, at, parts, false, stack, top, room, steps)
        }
        Cell::Or(parts) => {
            let parts = here.checked.parts(*parts);
            some_part(here, at, parts, true, stack, top, room, steps)
        }
        Cell::Pair(op, left, right) => {
            let left = holds_at(here, *left, stack, top, room, steps);
            let right = holds_at(here, *right, stack, top, room, steps);
            connect(*op, left, right)
        }
        Cell::Quant(quantifier, sort, _, body) => match quantifier {
            Quantifier::All => !some_element(here, *sort, *body, false, stack, top, room, steps),
            Quantifier::Exists => some_element(here, *sort, *body, true, stack, top, room, steps),
        },
        Cell::Modal(mode, index, body) => match mode {
            Mode::Box => !some_world(here, *index, *body, false, stack, top, room, steps),
            Mode::Dia => some_world(here, *index, *body, true, stack, top, room, steps),
        },
        Cell::Bound(_) => unreachable!(),
        Cell::App(_, _) => unreachable!(),
    }
}

/// Whether a predicate holds of the values of the arguments of a cell.
fn atom<L: Ledger>(
    here: Here<'_>,
    at: usize,
    symbol: u32,
    terms: &[usize],
    stack: &[u32],
    room: &mut [u32],
    steps: &mut Steps<L>,
) -> bool
    requires cell { at ≤ length here.checked.now.stored.cells }
    requires terms { Each (IsArgument here.checked.now.stored.cells at) terms.now }
    requires world_in { here.world < here.view.now.worlds }
    requires room { 1000 * (terms_depth (map (term_at here.checked.now.stored) terms.now) + 1) ≤ length room.old }
    requires fits { AtomFits here.view.now here.checked.now here.world stack.now symbol terms.now }
    ensures { result ≡ atom_holds here.entry.view.now here.entry.checked.now here.entry.world stack.now symbol terms.now }
{
    let (row, rest) = room.split_at_mut(1000);
    fill(here, at, terms, stack, row, rest, steps);
    here.view
        .holds(symbol, here.world, &row[..terms.len()], steps)
}

/// Whether two terms have the same value.
fn same<L: Ledger>(
    here: Here<'_>,
    left: usize,
    right: usize,
    stack: &[u32],
    room: &mut [u32],
    steps: &mut Steps<L>,
) -> bool
    requires left { IsTerm here.checked.now.stored left }
    requires right { IsTerm here.checked.now.stored right }
    requires world_in { here.world < here.view.now.worlds }
    requires left_room { 1000 * term_depth (term_at here.checked.now.stored left) ≤ length room.old }
    requires right_room { 1000 * term_depth (term_at here.checked.now.stored right) ≤ length room.old }
    requires left_fits { CellTermFits here.view.now here.checked.now here.world stack.now left }
    requires right_fits { CellTermFits here.view.now here.checked.now here.world stack.now right }
    ensures { result ≡ have_same_value here.entry.view.now here.entry.checked.now here.entry.world stack.now left right }
{
    let left = value_at(here, left, stack, room, steps);
    let right = value_at(here, right, stack, room, steps);
    left == right
}

/// The truth table of a connective.
fn connect(op: Op, left: bool, right: bool) -> bool
    ensures { result ≡ meant.connect op left right }
{
    match op {
        Op::Implies => !left || right,
        Op::ImpliedBy => left || !right,
        Op::Iff => left == right,
        Op::Xor => left != right,
        Op::Nor => !(left || right),
        Op::Nand => !(left && right),
    }
}

/// Whether some part of a cell has this truth.
#[cycle(holds_at)]
fn some_part<L: Ledger>(
    here: Here<'_>,
    at: usize,
    parts: &[usize],
    truth: bool,
    stack: &mut [u32],
    top: usize,
    room: &mut [u32],
    steps: &mut Steps<L>,
) -> bool
    requires cell { at ≤ length here.checked.now.stored.cells }
    requires parts { Each (IsPart here.checked.now.stored.cells at) parts.now }
    requires world_in { here.world < here.view.now.worlds }
    requires depth { top + nodes_depth (map (node_at here.checked.now.stored) parts.now) ≤ length stack.old }
    requires room { 1000 * nodes_depth (map (node_at here.checked.now.stored) parts.now) ≤ length room.old }
    requires fits { Each (CellFits here.view.now here.checked.now here.world (take top stack.old)) parts.now }
    ensures value { result ≡ some_has here.entry.view.now here.entry.checked.now here.entry.world (take top stack.old) parts.now truth }
    ensures kept { take top stack.new ≡ take top stack.old }
{
    for part in parts {
        if holds_at(here, *part, stack, top, room, steps) == truth {
            return true;
        }
    }
    false
}

/// Whether a formula has this truth for some element that exists.
#[cycle(holds_at)]
fn some_element<L: Ledger>(
    here: Here<'_>,
    sort: u32,
    body: usize,
    truth: bool,
    stack: &mut [u32],
    top: usize,
    room: &mut [u32],
    steps: &mut Steps<L>,
) -> bool
    requires formula { IsFormula here.checked.now.stored body }
    requires world_in { here.world < here.view.now.worlds }
    requires sort_in { sort < length here.view.now.existence }
    requires depth { top + (node_depth (node_at here.checked.now.stored body) + 1) ≤ length stack.old }
    requires room { 1000 * node_depth (node_at here.checked.now.stored body) ≤ length room.old }
    requires fits { FitsEachElement here.view.now here.checked.now here.world (take top stack.old) sort body }
    ensures value { result ≡ any_element here.entry.view.now here.entry.checked.now here.entry.world (take top stack.old) sort body truth }
    ensures kept { take top stack.new ≡ take top stack.old }
{
    for element in 0..here.view.size(sort) {
        if here.view.exists(sort, here.world, element, steps)
            && holds_of(here, element, body, stack, top, room, steps) == truth
        {
            return true;
        }
    }
    false
}

/// Whether a formula holds for one more value.
#[cycle(holds_at)]
fn holds_of<L: Ledger>(
    here: Here<'_>,
    element: u32,
    body: usize,
    stack: &mut [u32],
    top: usize,
    room: &mut [u32],
    steps: &mut Steps<L>,
) -> bool
    requires formula { IsFormula here.checked.now.stored body }
    requires world_in { here.world < here.view.now.worlds }
    requires depth { top + (node_depth (node_at here.checked.now.stored body) + 1) ≤ length stack.old }
    requires room { 1000 * node_depth (node_at here.checked.now.stored body) ≤ length room.old }
    requires fits { CellFits here.view.now here.checked.now here.world (take top stack.old ++ element ∷ []) body }
    ensures value { result ≡ sat_at here.entry.view.now here.entry.checked.now here.entry.world (take top stack.old ++ element ∷ []) body }
    ensures kept { take top stack.new ≡ take top stack.old }
{
    stack[top] = element;
    holds_at(here, body, stack, top + 1, room, steps)
}

/// Whether a formula has this truth at some world that is reached.
#[cycle(holds_at)]
fn some_world<L: Ledger>(
    here: Here<'_>,
    index: u32,
    body: usize,
    truth: bool,
    stack: &mut [u32],
    top: usize,
    room: &mut [u32],
    steps: &mut Steps<L>,
) -> bool
    requires formula { IsFormula here.checked.now.stored body }
    requires world_in { here.world < here.view.now.worlds }
    requires index_in { index < here.view.now.indexes }
    requires depth { top + node_depth (node_at here.checked.now.stored body) ≤ length stack.old }
    requires room { 1000 * node_depth (node_at here.checked.now.stored body) ≤ length room.old }
    requires fits { FitsEachWorld here.view.now here.checked.now (take top stack.old) body }
    ensures value { result ≡ any_world here.entry.view.now here.entry.checked.now here.entry.world (take top stack.old) index body truth }
    ensures kept { take top stack.new ≡ take top stack.old }
{
    for world in 0..here.view.worlds() {
        let there = Here {
            checked: here.checked,
            view: here.view,
            world,
        };
        if here.view.related(index, here.world, world, steps)
            && holds_at(there, body, stack, top, room, steps) == truth
        {
            return true;
        }
    }
    false
}
