//! The first premise or conjecture that keeps a structure from being a countermodel.
ghost use Rattle.std.specs.Prelude.{◌≡◌, ◌≤◌, ◌<◌, [], length, slice_get, IfOk, IfErr, Some};
ghost use Rattle.std.specs.Option.{option_map};
ghost use Rattle.nxf_tree.specs.Counting.{all_below};
ghost use Rattle.nxf_tree.specs.Parts as roles;
ghost use Rattle.fin_struct.specs.KripkeTables.{IsKripkeFor};
ghost use Rattle.formula_cells.specs.ReadAs.{OfItsFile};
ghost use Rattle.formula_cells.specs.Stored.{IsFormula, node_at};
ghost use Rattle.kripke_evaluation_definitions.specs.FileConditions as asked;
ghost use Rattle.kripke_evaluation_definitions.specs.FileConditions.{node_meets};
ghost use Rattle.kripke_evaluation_definitions.specs.NumberedDepth.{node_depth};
ghost use Rattle.kripke_evaluation_definitions.specs.NumberedMeaning.{node_sat, node_holds_in};
ghost use Rattle.kripke_eval.specs.Evaluating.{HasRoomAt, HasRoomForAll, IsFirstUnmet};
ghost use Rattle.kripke_eval.specs.steps.Cells.{FitsEachWorld};
ghost use Rattle.kripke_eval.specs.steps.Judging as spec;

use crate::evaluator::Eval;
use fin_struct::Condition;
use formula_cells::Checked;
use nxf_roles::Parts;
use nxf_tree::{Part, PartEntry, Scope};
use std::sync::ledger::Ledger;
use structure_views::{KripkeView, Steps};

/// Whether a part is the conjecture.
fn is_conjecture(part: Part) -> bool
    ensures { result ≡ roles.is_conjecture (Some part) }
{
    match part {
        Part::Premise(_) => false,
        Part::Conjecture(_) => true,
    }
}

/// The condition that a part asks.
fn condition_of(entry: &PartEntry) -> Condition
    ensures { result ≡ asked.condition_of entry.now.place entry.now.part }
{
    match entry.part {
        Part::Premise(_) => Condition::Premise(entry.place),
        Part::Conjecture(_) => Condition::Conjecture(entry.place),
    }
}

impl Eval {
    /// The first premise of the file that the checked formulas and the parts are read from that doesn't hold where it counts,
    /// by the numbers of their statements, or else the conjecture where it holds there. It takes no memory.
    pub fn first_fault<L: Ledger>(
        &mut self,
        checked: &Checked,
        parts: &Parts,
        view: &KripkeView<'_>,
        steps: &mut Steps<L>,
    ) -> Option<Condition>
        requires over { IsKripkeFor checked.now.signature view.now }
        requires room { HasRoomForAll self.old checked.now }
        ensures first { OfItsFile checked.now parts.now (IsFirstUnmet view.now result) }
        ensures kept { self.new ≡ self.old }
    {
        let worlds = view.worlds();
        prove!(worlds > 0);
        let _signature = checked.signature();
        match self.first_unmet(checked, parts, view, false, steps) {
            Some(condition) => Some(condition),
            None => self.first_unmet(checked, parts, view, true, steps),
        }
    }

    /// The first premise that isn't met, or else the first conjecture. Formulas and parts are both in the order of the file.
    fn first_unmet<L: Ledger>(
        &mut self,
        checked: &Checked,
        parts: &Parts,
        view: &KripkeView<'_>,
        conjecture: bool,
        steps: &mut Steps<L>,
    ) -> Option<Condition>
        requires over { IsKripkeFor checked.now.signature view.now }
        requires room { HasRoomForAll self.old checked.now }
        ensures first { result ≡ spec.first_unmet (spec.passes view.now conjecture) checked.now.formulas parts.now }
        ensures kept { self.new ≡ self.old }
    {
        let mut next = 0;
        for at in 0..checked.len() {
            match self.judge(checked, at, parts, next, view, conjecture, steps) {
                Ok(after) => next = after,
                Err(condition) => return Some(condition),
            }
        }
        None
    }

    /// Judges a formula where the next part is its own, and gives the place of the part after it, or the condition that isn't
    /// met.
    fn judge<L: Ledger>(
        &mut self,
        checked: &Checked,
        at: usize,
        parts: &Parts,
        next: usize,
        view: &KripkeView<'_>,
        conjecture: bool,
        steps: &mut Steps<L>,
    ) -> Result<usize, Condition>
        requires over { IsKripkeFor checked.now.signature view.now }
        requires at { at < length checked.now.formulas }
        requires room { HasRoomAt self.old checked.now at }
        requires within { next ≤ length parts.now }
        ensures within { IfOk result (λ after. after ≤ length parts.now) }
        ensures passed { IfOk result (spec.PassesOn view.now conjecture checked.now.formulas parts.now at next) }
        ensures fault { IfErr result (spec.StopsWith view.now conjecture checked.now.formulas parts.now at next) }
        ensures kept { self.new ≡ self.old }
    {
        if next >= parts.len() {
            return Ok(next);
        }
        let entry = parts.get(next);
        if entry.place != checked.place(at) {
            return Ok(next);
        }
        if is_conjecture(entry.part) == conjecture
            && !self.is_met(checked, at, entry.part, view, steps)
        {
            return Err(condition_of(entry));
        }
        Ok(next + 1)
    }

    /// Whether the formula at a place is as its part asks.
    fn is_met<L: Ledger>(
        &mut self,
        checked: &Checked,
        at: usize,
        part: Part,
        view: &KripkeView<'_>,
        steps: &mut Steps<L>,
    ) -> bool
        requires over { IsKripkeFor checked.now.signature view.now }
        requires at { at < length checked.now.formulas }
        requires room { HasRoomAt self.old checked.now at }
        ensures value { option_map (λ n. node_meets view.now part n.node) (slice_get checked.now.formulas at) ≡ Some result }
        ensures kept { self.new ≡ self.old }
    {
        let worlds = view.worlds();
        prove!(worlds > 0);
        let _signature = checked.signature();
        let root = checked.root(at);
        match part {
            Part::Premise(scope) => self.holds_where(checked, root, scope, view, steps),
            Part::Conjecture(scope) => !self.holds_where(checked, root, scope, view, steps),
        }
    }

    /// Whether the closed formula of a cell holds at the actual world, or at every world.
    fn holds_where<L: Ledger>(
        &mut self,
        checked: &Checked,
        root: usize,
        scope: Scope,
        view: &KripkeView<'_>,
        steps: &mut Steps<L>,
    ) -> bool
        requires formula { IsFormula checked.now.stored root }
        requires room { node_depth (node_at checked.now.stored root) ≤ self.old.depth }
        requires fits { FitsEachWorld view.now checked.now [] root }
        ensures value { result ≡ node_holds_in view.now scope (node_at checked.now.stored root) }
        ensures kept { self.new ≡ self.old }
    {
        match scope {
            Scope::Local => self.holds_root(checked, view, view.actual(), root, steps),
            Scope::Global => self.holds_everywhere(checked, root, view, steps),
        }
    }

    /// Whether the closed formula of a cell holds at every world.
    fn holds_everywhere<L: Ledger>(
        &mut self,
        checked: &Checked,
        root: usize,
        view: &KripkeView<'_>,
        steps: &mut Steps<L>,
    ) -> bool
        requires formula { IsFormula checked.now.stored root }
        requires room { node_depth (node_at checked.now.stored root) ≤ self.old.depth }
        requires fits { FitsEachWorld view.now checked.now [] root }
        ensures value { result ≡ all_below view.now.worlds (λ w. node_sat view.now w [] (node_at checked.now.stored root)) }
        ensures kept { self.new ≡ self.old }
    {
        for world in 0..view.worlds() {
            if !self.holds_root(checked, view, world, root, steps) {
                return false;
            }
        }
        true
    }
}
