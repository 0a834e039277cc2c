//! Values of terms.
ghost use Rattle.std.specs.Prelude.{◌≡◌, ℕ, ◌*◌, ◌<◌, ◌≤◌, length, map, take};
ghost use Rattle.std.specs.List.{All};
ghost use Rattle.formula_cells.specs.Stored.{IsArgument, IsTerm, term_at};
ghost use Rattle.classical_evaluation_definitions.specs.ClassicalFitting.{TermFits};
ghost use Rattle.kripke_evaluation_definitions.specs.NumberedDepth.{term_depth, terms_depth};
ghost use Rattle.classical_evaluation_definitions.specs.ClassicalMeaning.{node_value};

use crate::here::Here;
use formula_cells::Cell;
use std::sync::ledger::Ledger;
use structure_views::Steps;

/// The value of a term, where the stack has the values of the enclosing quantifiers from the outside in. Each level of
/// applications has room for a row of 1,001 values.
#[cycle(value_at)]
pub(crate) fn value_at<L: Ledger>(
    here: Here<'_>,
    at: usize,
    stack: &[u32],
    room: &mut [u32],
    steps: &mut Steps<L>,
) -> u32
    requires term { IsTerm here.prepared.now.stored at }
    requires fits { TermFits here.view.now stack.now (term_at here.prepared.now.stored at) }
    requires room { 1001 * term_depth (term_at here.prepared.now.stored at) ≤ length room.old }
    ensures { result ≡ node_value here.entry.view.now stack.now (term_at here.entry.prepared.now.stored at) }
{
    match here.prepared.cell(at) {
        Cell::Bound(level) => stack[*level as usize],
        Cell::App(symbol, span) => {
            if *symbol == 0 {
                return here.view.actual();
            }
            let (row, rest) = room.split_at_mut(1001);
            fill(
                here,
                at,
                here.prepared.parts(*span),
                stack,
                row,
                rest,
                steps,
            );
            here.view.get(*symbol - 1, &row[..span.len], steps)
        }
        _ => unreachable!(),
    }
}

/// Writes the values of the arguments of a cell to the front of a row.
#[cycle(value_at)]
pub(crate) fn fill<L: Ledger>(
    here: Here<'_>,
    at: usize,
    terms: &[usize],
    stack: &[u32],
    row: &mut [u32],
    room: &mut [u32],
    steps: &mut Steps<L>,
)
    requires cell { at ≤ length here.prepared.now.stored.cells }
    requires terms { All (IsArgument here.prepared.now.stored.cells at) terms.now }
    requires fits { All (λ n. TermFits here.view.now stack.now (term_at here.prepared.now.stored n)) terms.now }
    requires few { length terms.now ≤ length row.old }
    requires room { 1001 * terms_depth (map (term_at here.prepared.now.stored) terms.now) ≤ length room.old }
    ensures { let value = node_value here.entry.view.now stack.now in
        take (length terms.now) row.new ≡ map (λ n. value (term_at here.entry.prepared.now.stored n)) terms.now }
{
    for (i, term) in terms.iter().enumerate() {
        row[i] = value_at(here, *term, stack, room, steps);
    }
}
