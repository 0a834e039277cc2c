//! The evaluator.
ghost use Rattle.std.specs.Prelude.{◌≡◌, ℕ, ◌<◌, ◌≤◌, [], length, IfOk, Some};
ghost use Rattle.fin_struct.specs.KripkeTables.{IsKripkeFor};
ghost use Rattle.formula_cells.specs.Checked.{GreatestDepth};
ghost use Rattle.formula_cells.specs.Stored.{IsFormula, node_at};
ghost use Rattle.kripke_evaluation_definitions.specs.Fitting.{Fits as NodeFits};
ghost use Rattle.kripke_evaluation_definitions.specs.NumberedDepth.{node_depth};
ghost use Rattle.kripke_evaluation_definitions.specs.NumberedMeaning.{node_sat};
ghost use Rattle.kripke_eval.specs.Evaluating.{HasRoomAt, HasRoomForAll, truth_at};

use crate::formulas::holds_at;
use crate::here::Here;
use fin_struct::Kripke;
use formula_cells::Checked;
use nxf_base::Memory;
use std::alloc::Global;
use std::marker::Model;
use std::sync::ledger::Ledger;
use structure_views::{KripkeView, Steps};

/// Room for the values of enclosing quantifiers, and at each level of a formula for a row of 1,000 values. Contracts see the
/// depth of formulas that there is room for.
#[derive(Drop)]
pub struct Eval {
    stack: Vec<u32>,
    room: Vec<u32>,
}

impl Model for Eval {
    ghost use Rattle.std.specs.Prelude.{ℕ, ◌*◌, ◌≤◌, length};
    ghost use Rattle.kripke_eval.specs.Evaluating.{Room};

    ghost Value = { Room };

    ghost view = { λ e. record { depth = length e.stack.items } };

    ghost invariant = { λ e. 1000 * length e.stack.items ≤ length e.room.items };
}

impl Eval {
    /// An evaluator with room for all formulas of a checked file over a structure for its signature, or `Memory` where there
    /// is none for it.
    pub fn new(alloc: Global, checked: &Checked, kripke: &Kripke) -> Result<Eval, Memory>
        requires { IsKripkeFor checked.now.signature kripke.now }
        ensures depth { IfOk result (λ eval. GreatestDepth checked.now.signature checked.now.formulas eval.depth) }
        ensures room { IfOk result (λ eval. HasRoomForAll eval checked.now) }
    {
        let _signature = checked.signature();
        let depth = checked.depth();
        let Some(places) = depth.checked_mul(1000) else {
            return Err(Memory);
        };
        let stack = vec![in alloc; 0; depth]?;
        let room = vec![in alloc; 0; places]?;
        Ok(Eval { stack, room })
    }

    /// Whether the formula at a place, counted from 0, holds at a world of the view's structure, by Kripke satisfaction of
    /// `nxf_tree`'s specs. It takes no memory.
    pub fn holds<L: Ledger>(
        &mut self,
        checked: &Checked,
        view: &KripkeView<'_>,
        world: u32,
        at: usize,
        steps: &mut Steps<L>,
    ) -> bool
        requires over { IsKripkeFor checked.now.signature view.now }
        requires at { at < length checked.now.formulas }
        requires world_in { world < view.now.worlds }
        requires room { HasRoomAt self.old checked.now at }
        ensures value { truth_at checked.now view.now world at ≡ Some result }
        ensures kept { self.new ≡ self.old }
    {
        let worlds = view.worlds();
        prove!(worlds > world);
        let _signature = checked.signature();
        let root = checked.root(at);
        self.holds_root(checked, view, world, root, steps)
    }

    /// The same of the closed formula of a cell.
    pub(crate) fn holds_root<L: Ledger>(
        &mut self,
        checked: &Checked,
        view: &KripkeView<'_>,
        world: u32,
        root: usize,
        steps: &mut Steps<L>,
    ) -> bool
        requires formula { IsFormula checked.now.stored root }
        requires world_in { world < view.now.worlds }
        requires room { node_depth (node_at checked.now.stored root) ≤ self.old.depth }
        requires fits { NodeFits view.now world [] (node_at checked.now.stored root) }
        ensures value { result ≡ node_sat view.now world [] (node_at checked.now.stored root) }
        ensures kept { self.new ≡ self.old }
    {
        let here = Here {
            checked,
            view,
            world,
        };
        holds_at(here, root, &mut self.stack, 0, &mut self.room, steps)
    }
}
