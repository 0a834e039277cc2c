//! Whether a structure is a countermodel.
ghost use Rattle.std.specs.Prelude.{◌≡◌, ◌<◌, None, OnOk, IfOk, IfErr};
ghost use Rattle.fin_struct.specs.KripkeTables.{IsKripkeFor, kripke_structure};
ghost use Rattle.answer_definitions.specs.Answer.{OrMemory};
ghost use Rattle.answer_definitions.specs.Verdict.{IsFaultOf, NamesFault};

use crate::not_countermodel;
use fin_struct::{Condition, Kripke};
use formula_cells::Checked;
use kripke_check::first_fault;
use kripke_eval::Eval;
use nxf_base::{Memory, Status};
use nxf_roles::Parts;
use std::alloc::Global;
use std::marker::Brand;
use std::sync::ledger::{Blank, Ledger};
use structure_views::Steps;

/// Nothing, where the structure is a countermodel of the problem. Else the first condition that it doesn't meet, by the names of the
/// signature, or want of memory.
pub fn judge(alloc: Global, checked: &Checked, parts: &Parts, kripke: &Kripke) -> Result<(), Status>
    requires { IsKripkeFor checked.now.signature kripke.now }
    ensures countermodel { OnOk result (IsFaultOf checked.now parts.now (kripke_structure kripke.now) None) }
    ensures refused { IfErr result (OrMemory (NamesFault checked.now parts.now (kripke_structure kripke.now))) }
{
    match fault_of::<Brand>(alloc, checked, parts, kripke, Blank::new(1)) {
        Ok(None) => Ok(()),
        Ok(Some(fault)) => Err(not_countermodel(alloc, checked.signature(), fault)),
        Err(Memory) => Err(Status::Memory),
    }
}

/// The first condition that the structure doesn't meet of those that the problem asks, with a counter of steps of its own.
fn fault_of<L: Ledger>(
    alloc: Global,
    checked: &Checked,
    parts: &Parts,
    kripke: &Kripke,
    blank: Blank,
) -> Result<Option<Condition>, Memory>
    requires name { blank.name ≡ L.name }
    requires cut { blank.parts ≡ L.parts }
    requires some { 0 < blank.parts }
    requires over { IsKripkeFor checked.now.signature kripke.now }
    ensures { IfOk result (IsFaultOf checked.now parts.now (kripke_structure kripke.now)) }
{
    let mut steps = Steps::<L>::new(blank);
    let mut eval = Eval::new(alloc, checked, kripke)?;
    Ok(first_fault(&mut eval, checked, parts, kripke, &mut steps))
}
