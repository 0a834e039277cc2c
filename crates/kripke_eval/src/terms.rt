//! Values of terms.
ghost use Rattle.std.specs.Prelude.{◌≡◌, ◌*◌, ◌<◌, ◌≤◌, length, map, take};
ghost use Rattle.std.specs.List.{All};
ghost use Rattle.formula_cells.specs.Stored.{IsArgument, IsTerm, term_at};
ghost use Rattle.kripke_evaluation_definitions.specs.NumberedDepth.{term_depth, terms_depth};
ghost use Rattle.kripke_eval.specs.steps.Cells.{cell_value, values_at, CellTermFits};

use crate::here::Here;
use formula_cells::Cell;
use std::sync::ledger::Ledger;
use structure_views::Steps;

/// The value of a term, where the stack has the values of the enclosing quantifiers from the outside in. Each level of
/// applications has room for a row of 1,000 values.
#[cycle(value_at)]
pub(crate) fn value_at<L: Ledger>(
    here: Here<'_>,
    at: usize,
    stack: &[u32],
    room: &mut [u32],
    steps: &mut Steps<L>,
) -> u32
    requires term { IsTerm here.checked.now.stored at }
    requires world_in { here.world < here.view.now.worlds }
    requires fits { CellTermFits here.view.now here.checked.now here.world stack.now at }
    requires room { 1000 * term_depth (term_at here.checked.now.stored at) ≤ length room.old }
    ensures { result ≡ cell_value here.entry.view.now here.entry.checked.now here.entry.world stack.now at }
{
    match here.checked.cell(at) {
        Cell::Bound(level) => stack[*level as usize],
        Cell::App(symbol, span) => {
            let (row, rest) = room.split_at_mut(1000);
            fill(here, at, here.checked.parts(*span), stack, row, rest, steps);
            here.view
                .value(*symbol, here.world, &row[..span.len], steps)
        }
        _ => unreachable!(),
    }
}

/// Writes the values of the arguments of a cell to the front of a row.
#[cycle(value_at)]
pub(crate) fn fill<L: Ledger>(
    here: Here<'_>,
    at: usize,
    terms: &[usize],
    stack: &[u32],
    row: &mut [u32],
    room: &mut [u32],
    steps: &mut Steps<L>,
)
    requires cell { at ≤ length here.checked.now.stored.cells }
    requires terms { All (IsArgument here.checked.now.stored.cells at) terms.now }
    requires world_in { here.world < here.view.now.worlds }
    requires fits { All (CellTermFits here.view.now here.checked.now here.world stack.now) terms.now }
    requires few { length terms.now ≤ length row.old }
    requires room { 1000 * terms_depth (map (term_at here.checked.now.stored) terms.now) ≤ length room.old }
    ensures { take (length terms.now) row.new ≡ values_at here.entry.view.now here.entry.checked.now here.entry.world stack.now terms.now }
{
    for (i, term) in terms.iter().enumerate() {
        row[i] = value_at(here, *term, stack, room, steps);
    }
}
