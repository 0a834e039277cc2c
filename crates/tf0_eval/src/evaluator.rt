//! The evaluator.
ghost use Rattle.std.specs.Prelude.{◌≡◌, ℕ, ◌<◌, ◌≤◌, [], length, slice_get, IfOk, Some};
ghost use Rattle.std.specs.Option.{option_map};
ghost use Rattle.nxf_tree.specs.Classical.{csat};
ghost use Rattle.fin_struct.specs.StructureTables.{IsFor};
ghost use Rattle.formula_cells.specs.Stored.{IsFormula, node_at};
ghost use Rattle.kripke_evaluation_definitions.specs.NumberedDepth.{node_depth};
ghost use Rattle.classical_evaluation_definitions.specs.ClassicalFaults.{model_of, RoleFormula};
ghost use Rattle.classical_evaluation_definitions.specs.ClassicalFitting.{Fits as NodeFits};
ghost use Rattle.classical_evaluation_definitions.specs.ClassicalMeaning.{node_sat};
ghost use Rattle.classical_numbering.specs.Prepared.{deepest};
ghost use Rattle.tf0_eval.specs.Evaluating.{HasRoomAt, HasRoomForAll};

use crate::formulas::holds_at;
use crate::here::Here;
use classical_numbering::Prepared;
use fin_struct::Structure;
use nxf_base::Memory;
use std::alloc::Global;
use std::marker::Model;
use std::sync::ledger::Ledger;
use structure_views::{Steps, StructureView};

/// Room for the values of enclosing quantifiers, and at each level of a formula for a row of 1,001 values. Contracts see the
/// depth of formulas that there is room for.
#[derive(Drop)]
pub struct Eval {
    stack: Vec<u32>,
    room: Vec<u32>,
}

impl Model for Eval {
    ghost use Rattle.std.specs.Prelude.{ℕ, ◌*◌, ◌≤◌, length};
    ghost use Rattle.tf0_eval.specs.Evaluating.{Room};

    ghost Value = { Room };

    ghost view = { λ e. record { depth = length e.stack.items } };

    ghost invariant = { λ e. 1001 * length e.stack.items ≤ length e.room.items };
}

impl Eval {
    /// An evaluator with room for all prepared formulas over a structure for their signature, or `Memory` where there is none
    /// for it.
    pub fn new(alloc: Global, prepared: &Prepared, structure: &Structure) -> Result<Eval, Memory>
        requires { IsFor prepared.now.signature structure.now }
        ensures depth { IfOk result (λ eval. eval.depth ≡ deepest prepared.now.formulas) }
        ensures room { IfOk result (λ eval. HasRoomForAll eval prepared.now) }
    {
        let depth = prepared.depth();
        let Some(places) = depth.checked_mul(1001) else {
            return Err(Memory);
        };
        let stack = vec![in alloc; 0; depth]?;
        let room = vec![in alloc; 0; places]?;
        Ok(Eval { stack, room })
    }

    /// Whether the formula at a place, counted from 0, is true in the view's structure, by classical satisfaction of
    /// `nxf_tree`'s specs. It takes no memory.
    pub fn holds<L: Ledger>(
        &mut self,
        prepared: &Prepared,
        view: &StructureView<'_>,
        at: usize,
        steps: &mut Steps<L>,
    ) -> bool
        requires over { IsFor prepared.now.signature view.now }
        requires at { at < length prepared.now.formulas }
        requires room { HasRoomAt self.old prepared.now at }
        ensures value { let is_true = λ (f : RoleFormula). csat (model_of prepared.now.signature view.now) [] f.formula in
            option_map is_true (slice_get prepared.now.formulas at) ≡ Some result }
        ensures kept { self.new ≡ self.old }
    {
        let _worlds = view.size(0);
        let _signature = prepared.signature();
        let root = prepared.root(at);
        self.holds_root(prepared, view, root, steps)
    }

    /// The same of the closed formula of a cell.
    fn holds_root<L: Ledger>(
        &mut self,
        prepared: &Prepared,
        view: &StructureView<'_>,
        root: usize,
        steps: &mut Steps<L>,
    ) -> bool
        requires formula { IsFormula prepared.now.stored root }
        requires room { node_depth (node_at prepared.now.stored root) ≤ self.old.depth }
        requires fits { NodeFits view.now [] (node_at prepared.now.stored root) }
        ensures value { result ≡ node_sat view.now [] (node_at prepared.now.stored root) }
        ensures kept { self.new ≡ self.old }
    {
        let here = Here { prepared, view };
        holds_at(here, root, &mut self.stack, 0, &mut self.room, steps)
    }
}
