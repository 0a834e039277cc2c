//! Truth of formulas.
ghost use Rattle.std.specs.Prelude.{◌≡◌, ℕ, ◌+◌, ◌*◌, ◌<◌, ◌≤◌, ◌&&◌, List, [], ◌∷◌, ◌++◌, length, map, max, nat_eq, take};
ghost use Rattle.std.specs.List.{All as Each, list_any};
ghost use Rattle.nxf_tree.specs.Counting.{all_different, any_below, same_truth};
ghost use Rattle.nxf_tree.specs.Kripke as meant;
ghost use Rattle.nxf_tree.specs.Rows.{size_at};
ghost use Rattle.numbered_definitions.specs.declared.node.Node as node;
ghost use Rattle.numbered_definitions.specs.NamedForm.{NodeQuant};
ghost use Rattle.formula_cells.specs.Stored.{IsArgument, IsFormula, IsPart, IsTerm, node_at, term_at};
ghost use Rattle.classical_evaluation_definitions.specs.ClassicalFitting.{Fits as NodeFits, TermFits};
ghost use Rattle.kripke_evaluation_definitions.specs.NumberedDepth.{term_depth, terms_depth, node_depth, nodes_depth};
ghost use Rattle.classical_evaluation_definitions.specs.ClassicalMeaning.{node_value, node_sat};

use crate::here::Here;
use crate::terms::{fill, value_at};
use formula_cells::Cell;
use nxf_tree::{Op, Quantifier};
use std::sync::ledger::Ledger;
use structure_views::Steps;

/// Whether a formula holds. The first `top` values of the stack are those of the enclosing quantifiers from the outside in,
/// and stay as they are; at each level of the formula there is room for a row of 1,001 values.
#[cycle(holds_at)]
pub(crate) fn holds_at<L: Ledger>(
    here: Here<'_>,
    at: usize,
    stack: &mut [u32],
    top: usize,
    room: &mut [u32],
    steps: &mut Steps<L>,
) -> bool
    requires formula { IsFormula here.prepared.now.stored at }
    requires depth { top + node_depth (node_at here.prepared.now.stored at) ≤ length stack.old }
    requires room { 1001 * node_depth (node_at here.prepared.now.stored at) ≤ length room.old }
    requires fits { NodeFits here.view.now (take top stack.old) (node_at here.prepared.now.stored at) }
    ensures value { let formula = node_at here.entry.prepared.now.stored at in
        result ≡ node_sat here.entry.view.now (take top stack.old) formula }
    ensures kept { take top stack.new ≡ take top stack.old }
{
    match here.prepared.cell(at) {
        Cell::True => true,
        Cell::False => false,
        Cell::Atom(symbol, terms) => {
            let terms = here.prepared.parts(*terms);
            atom(here, at, *symbol, terms, &stack[..top], room, steps)
        }
        Cell::Same(left, right) => same(here, *left, *right, &stack[..top], room, steps),
        Cell::Differ(left, right) => !same(here, *left, *right, &stack[..top], room, steps),
        Cell::Not(part) => !holds_at(here, *part, stack, top, room, steps),
        Cell::And(parts) => {
            let parts = here.prepared.parts(*parts);
            !some_part(here, at, parts, false, stack, top, room, steps)
        }
        Cell::Or(parts) => {
            let parts = here.prepared.parts(*parts);
            some_part(here, at, parts, true, stack, top, room, steps)
        }
        Cell::Pair(op, left, right) => {
            let left = holds_at(here, *left, stack, top, room, steps);
            let right = holds_at(here, *right, stack, top, room, steps);
            connect(*op, left, right)
        }
        Cell::Quant(quantifier, sort, _, body) => {
            quantified(here, *quantifier, *sort, *body, stack, top, room, steps)
        }
        Cell::Modal(_, _, _) => unreachable!(),
        Cell::Bound(_) => unreachable!(),
        Cell::App(_, _) => unreachable!(),
    }
}

/// Whether a predicate holds of the values of the arguments of a cell.
fn atom<L: Ledger>(
    here: Here<'_>,
    at: usize,
    symbol: u32,
    terms: &[usize],
    stack: &[u32],
    room: &mut [u32],
    steps: &mut Steps<L>,
) -> bool
    requires cell { at ≤ length here.prepared.now.stored.cells }
    requires terms { Each (IsArgument here.prepared.now.stored.cells at) terms.now }
    requires room { 1001 * (terms_depth (map (term_at here.prepared.now.stored) terms.now) + 1) ≤ length room.old }
    requires fits { NodeFits here.view.now stack.now (node.Atom symbol (map (term_at here.prepared.now.stored) terms.now)) }
    ensures { let formula = node.Atom symbol (map (term_at here.entry.prepared.now.stored) terms.now) in
        result ≡ node_sat here.entry.view.now stack.now formula }
{
    if symbol == 0 {
        return all_differ(here, at, terms, stack, room, steps);
    }
    let (row, rest) = room.split_at_mut(1001);
    fill(here, at, terms, stack, row, rest, steps);
    here.view.get(symbol - 1, &row[..terms.len()], steps) == 1
}

/// Whether the values of the arguments of a cell differ pairwise, however many they are.
fn all_differ<L: Ledger>(
    here: Here<'_>,
    at: usize,
    terms: &[usize],
    stack: &[u32],
    room: &mut [u32],
    steps: &mut Steps<L>,
) -> bool
    requires cell { at ≤ length here.prepared.now.stored.cells }
    requires terms { Each (IsArgument here.prepared.now.stored.cells at) terms.now }
    requires room { 1001 * terms_depth (map (term_at here.prepared.now.stored) terms.now) ≤ length room.old }
    requires fits { Each (λ n. TermFits here.view.now stack.now (term_at here.prepared.now.stored n)) terms.now }
    ensures { let value = λ (n : ℕ). node_value here.entry.view.now stack.now (term_at here.entry.prepared.now.stored n) in
        result ≡ all_different nat_eq (map value terms.now) }
{
    for (i, term) in terms.iter().enumerate() {
        let value = value_at(here, *term, stack, room, steps);
        if has_value(here, at, value, &terms[i + 1..], stack, room, steps) {
            return false;
        }
    }
    true
}

/// Whether an argument of a cell has this value.
fn has_value<L: Ledger>(
    here: Here<'_>,
    at: usize,
    value: u32,
    terms: &[usize],
    stack: &[u32],
    room: &mut [u32],
    steps: &mut Steps<L>,
) -> bool
    requires cell { at ≤ length here.prepared.now.stored.cells }
    requires terms { Each (IsArgument here.prepared.now.stored.cells at) terms.now }
    requires room { 1001 * terms_depth (map (term_at here.prepared.now.stored) terms.now) ≤ length room.old }
    requires fits { Each (λ n. TermFits here.view.now stack.now (term_at here.prepared.now.stored n)) terms.now }
    ensures { let value_of = λ (n : ℕ). node_value here.entry.view.now stack.now (term_at here.entry.prepared.now.stored n) in
        result ≡ list_any (λ n. nat_eq (value_of n) value) terms.now }
{
    for term in terms {
        if value_at(here, *term, stack, room, steps) == value {
            return true;
        }
    }
    false
}

/// Whether two terms have the same value.
fn same<L: Ledger>(
    here: Here<'_>,
    left: usize,
    right: usize,
    stack: &[u32],
    room: &mut [u32],
    steps: &mut Steps<L>,
) -> bool
    requires left { IsTerm here.prepared.now.stored left }
    requires right { IsTerm here.prepared.now.stored right }
    requires left_room { 1001 * term_depth (term_at here.prepared.now.stored left) ≤ length room.old }
    requires right_room { 1001 * term_depth (term_at here.prepared.now.stored right) ≤ length room.old }
    requires left_fits { TermFits here.view.now stack.now (term_at here.prepared.now.stored left) }
    requires right_fits { TermFits here.view.now stack.now (term_at here.prepared.now.stored right) }
    ensures { let value = λ (n : ℕ). node_value here.entry.view.now stack.now (term_at here.entry.prepared.now.stored n) in
        result ≡ nat_eq (value left) (value right) }
{
    let left = value_at(here, left, stack, room, steps);
    let right = value_at(here, right, stack, room, steps);
    left == right
}

/// The truth table of a connective.
fn connect(op: Op, left: bool, right: bool) -> bool
    ensures { result ≡ meant.connect op left right }
{
    match op {
        Op::Implies => !left || right,
        Op::ImpliedBy => left || !right,
        Op::Iff => left == right,
        Op::Xor => left != right,
        Op::Nor => !(left || right),
        Op::Nand => !(left && right),
    }
}

/// Whether some part of a cell has this truth.
#[cycle(holds_at)]
fn some_part<L: Ledger>(
    here: Here<'_>,
    at: usize,
    parts: &[usize],
    truth: bool,
    stack: &mut [u32],
    top: usize,
    room: &mut [u32],
    steps: &mut Steps<L>,
) -> bool
    requires cell { at ≤ length here.prepared.now.stored.cells }
    requires parts { Each (IsPart here.prepared.now.stored.cells at) parts.now }
    requires depth { top + nodes_depth (map (node_at here.prepared.now.stored) parts.now) ≤ length stack.old }
    requires room { 1001 * nodes_depth (map (node_at here.prepared.now.stored) parts.now) ≤ length room.old }
    requires fits { let fits = NodeFits here.view.now (take top stack.old) in
        Each (λ n. fits (node_at here.prepared.now.stored n)) parts.now }
    ensures value { let sat = node_sat here.entry.view.now (take top stack.old) in
        result ≡ list_any (λ n. same_truth truth (sat (node_at here.entry.prepared.now.stored n))) parts.now }
    ensures kept { take top stack.new ≡ take top stack.old }
{
    for part in parts {
        if holds_at(here, *part, stack, top, room, steps) == truth {
            return true;
        }
    }
    false
}

/// Whether a formula holds for each element of a sort, or for some.
#[cycle(holds_at)]
fn quantified<L: Ledger>(
    here: Here<'_>,
    quantifier: Quantifier,
    sort: u32,
    body: usize,
    stack: &mut [u32],
    top: usize,
    room: &mut [u32],
    steps: &mut Steps<L>,
) -> bool
    requires formula { IsFormula here.prepared.now.stored body }
    requires depth { top + (node_depth (node_at here.prepared.now.stored body) + 1) ≤ length stack.old }
    requires room { 1001 * node_depth (node_at here.prepared.now.stored body) ≤ length room.old }
    requires fits { let fits = λ (a : ℕ). NodeFits here.view.now (take top stack.old ++ a ∷ []) (node_at here.prepared.now.stored body) in
        (a : ℕ) → a < size_at here.view.now.sizes sort → fits a }
    ensures value { let formula = λ (x : List ℕ). NodeQuant quantifier sort x (node_at here.entry.prepared.now.stored body) in
        (x : List ℕ) → result ≡ node_sat here.entry.view.now (take top stack.old) (formula x) }
    ensures kept { take top stack.new ≡ take top stack.old }
{
    match quantifier {
        Quantifier::All => !some_element(here, sort, body, false, stack, top, room, steps),
        Quantifier::Exists => some_element(here, sort, body, true, stack, top, room, steps),
    }
}

/// Whether a formula has this truth for some element of a sort.
#[cycle(holds_at)]
fn some_element<L: Ledger>(
    here: Here<'_>,
    sort: u32,
    body: usize,
    truth: bool,
    stack: &mut [u32],
    top: usize,
    room: &mut [u32],
    steps: &mut Steps<L>,
) -> bool
    requires formula { IsFormula here.prepared.now.stored body }
    requires depth { top + (node_depth (node_at here.prepared.now.stored body) + 1) ≤ length stack.old }
    requires room { 1001 * node_depth (node_at here.prepared.now.stored body) ≤ length room.old }
    requires fits { let fits = λ (a : ℕ). NodeFits here.view.now (take top stack.old ++ a ∷ []) (node_at here.prepared.now.stored body) in
        (a : ℕ) → a < size_at here.view.now.sizes sort → fits a }
    ensures value { let sat = λ (e : List ℕ). node_sat here.entry.view.now e (node_at here.entry.prepared.now.stored body) in
        result ≡ any_below (size_at here.entry.view.now.sizes sort) (λ a. same_truth truth (sat (take top stack.old ++ a ∷ []))) }
    ensures kept { take top stack.new ≡ take top stack.old }
{
    for element in 0..here.view.size(sort) {
        if holds_of(here, element, body, stack, top, room, steps) == truth {
            return true;
        }
    }
    false
}

/// Whether a formula holds for one more value.
#[cycle(holds_at)]
fn holds_of<L: Ledger>(
    here: Here<'_>,
    element: u32,
    body: usize,
    stack: &mut [u32],
    top: usize,
    room: &mut [u32],
    steps: &mut Steps<L>,
) -> bool
    requires formula { IsFormula here.prepared.now.stored body }
    requires depth { top + (node_depth (node_at here.prepared.now.stored body) + 1) ≤ length stack.old }
    requires room { 1001 * node_depth (node_at here.prepared.now.stored body) ≤ length room.old }
    requires fits { NodeFits here.view.now (take top stack.old ++ element ∷ []) (node_at here.prepared.now.stored body) }
    ensures value { let formula = node_at here.entry.prepared.now.stored body in
        result ≡ node_sat here.entry.view.now (take top stack.old ++ element ∷ []) formula }
    ensures kept { take top stack.new ≡ take top stack.old }
{
    stack[top] = element;
    holds_at(here, body, stack, top + 1, room, steps)
}
