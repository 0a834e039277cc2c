//! Whether a Kripke structure is a countermodel of a file.
#![tactic(auto)]

ghost use Rattle.std.specs.Prelude.{◌≡◌, ◌<◌};
ghost use Rattle.fin_struct.specs.KripkeTables.{IsKripkeFor};
ghost use Rattle.formula_cells.specs.ReadAs.{OfItsFile};
ghost use Rattle.kripke_check.specs.FirstFaults.{IsFirstFault, TellsCountermodel};
ghost use Rattle.kripke_eval.specs.Evaluating.{HasRoomForAll};

use fin_struct::{Condition, Kripke};
use formula_cells::Checked;
use kripke_eval::Eval;
use nxf_roles::Parts;
use std::sync::ledger::Ledger;
use structure_views::{KripkeView, Steps};

/// The first condition that a structure doesn't meet of those that the file asks which the checked formulas and the parts are
/// read from: frames by index, domains by sort, terms by symbol, premises by statement, and then the conjecture. There is none
/// exactly where the structure is a countermodel of the file. It takes no memory.
pub fn first_fault<L: Ledger>(
    eval: &mut Eval,
    checked: &Checked,
    parts: &Parts,
    kripke: &Kripke,
    steps: &mut Steps<L>,
) -> Option<Condition>
    requires over { IsKripkeFor checked.now.signature kripke.now }
    requires room { HasRoomForAll eval.old checked.now }
    ensures first { OfItsFile checked.now parts.now (IsFirstFault kripke.now result) }
    ensures none { OfItsFile checked.now parts.now (TellsCountermodel kripke.now result) }
    ensures kept { eval.new ≡ eval.old }
{
    let worlds = kripke.worlds();
    prove!(worlds > 0);
    let over = checked.signature();
    if let Some(fault) = frames::first_fault(over, kripke) {
        return Some(fault);
    }
    if let Some(fault) = domains::first_fault(over, kripke) {
        return Some(fault);
    }
    if let Some(fault) = designation::first_fault(over, kripke) {
        return Some(fault);
    }
    eval.first_fault(checked, parts, &KripkeView::new(kripke), steps)
}
