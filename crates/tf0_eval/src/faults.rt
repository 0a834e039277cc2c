//! The first formula that keeps a structure from being a countermodel.
ghost use Rattle.std.specs.Prelude.{◌≡◌, ◌<◌, length, slice_get, Some};
ghost use Rattle.std.specs.Option.{option_map};
ghost use Rattle.nxf_tree.specs.Names.{same_text};
ghost use Rattle.fin_struct.specs.StructureTables.{IsFor};
ghost use Rattle.classical_evaluation_definitions.specs.ClassicalFaults.{IsFirstPlace, meets_role, model_of};
ghost use Rattle.tf0_eval.specs.Evaluating.{HasRoomAt, HasRoomForAll, OfItsProblem, TellsCountermodel};

use crate::evaluator::Eval;
use classical_numbering::Prepared;
use std::sync::ledger::Ledger;
use structure_views::{Steps, StructureView};

/// Whether two words are the same.
fn is_same(word: &[u8], other: &[u8]) -> bool
    ensures { result ≡ same_text other.now word.now }
{
    other == word
}

impl Eval {
    /// The place of the first formula, counted from 0, that keeps the structure from being a countermodel: an axiom that is
    /// false or a conjecture that is true. `None` exactly where there is none, so where the structure is a countermodel of
    /// each file that has these formulas. It takes no memory.
    pub fn first_fault<L: Ledger>(
        &mut self,
        prepared: &Prepared,
        view: &StructureView<'_>,
        steps: &mut Steps<L>,
    ) -> Option<usize>
        requires over { IsFor prepared.now.signature view.now }
        requires room { HasRoomForAll self.old prepared.now }
        ensures first { IsFirstPlace (meets_role (model_of prepared.now.signature view.now)) prepared.now.formulas result }
        ensures countermodel { OfItsProblem prepared.now (TellsCountermodel view.now result) }
        ensures kept { self.new ≡ self.old }
    {
        let _worlds = view.size(0);
        self.first_unmet(prepared, view, steps)
    }

    /// The place of the first formula that isn't as its role asks.
    fn first_unmet<L: Ledger>(
        &mut self,
        prepared: &Prepared,
        view: &StructureView<'_>,
        steps: &mut Steps<L>,
    ) -> Option<usize>
        requires over { IsFor prepared.now.signature view.now }
        requires room { HasRoomForAll self.old prepared.now }
        ensures first { IsFirstPlace (meets_role (model_of prepared.now.signature view.now)) prepared.now.formulas result }
        ensures kept { self.new ≡ self.old }
    {
        for at in 0..prepared.len() {
            if !self.is_met(prepared, view, at, steps) {
                return Some(at);
            }
        }
        None
    }

    /// Whether the formula at a place is as its role asks: an axiom is true, and a conjecture false. Other roles ask nothing.
    fn is_met<L: Ledger>(
        &mut self,
        prepared: &Prepared,
        view: &StructureView<'_>,
        at: usize,
        steps: &mut Steps<L>,
    ) -> bool
        requires over { IsFor prepared.now.signature view.now }
        requires at { at < length prepared.now.formulas }
        requires room { HasRoomAt self.old prepared.now at }
        ensures value { option_map (meets_role (model_of prepared.now.signature view.now)) (slice_get prepared.now.formulas at) ≡ Some result }
        ensures kept { self.new ≡ self.old }
    {
        let word = prepared.role(at).bytes();
        if is_same(word, b"axiom") {
            self.holds(prepared, view, at, steps)
        } else if is_same(word, b"conjecture") {
            !self.holds(prepared, view, at, steps)
        } else {
            true
        }
    }
}
