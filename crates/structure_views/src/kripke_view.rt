//! Kripke structures, as evaluators read them.
ghost use Rattle.std.specs.Prelude.{◌≡◌, ◌+◌, ◌<◌, [], ◌∷◌, length, None, IsSome};
ghost use Rattle.nxf_tree.specs.Rows as rows;
ghost use Rattle.fin_struct.specs.Places.{InRange};
ghost use Rattle.fin_struct.specs.Cells.{bound_of};
ghost use Rattle.fin_struct.specs.RowLists.{true_rows, listed};
ghost use Rattle.fin_struct.specs.ExistenceLists.{listed_to_exist};
ghost use Rattle.fin_struct.specs.KripkeTables.{IsKripke, relation_table, related_in, exists_in, symbol_table, symbol_row, value_in, predicate_in};

use crate::steps::Steps;
use fin_struct::Kripke;
use std::marker::Model;
use std::sync::ledger::Ledger;

/// A Kripke structure that can only be read, where each reading of a cell is one step. Contracts see the structure. No call
/// takes memory.
#[derive(Drop)]
pub struct KripkeView<'a> {
    kripke: &'a Kripke,
}

impl<'a> Model for KripkeView<'a> {
    ghost use Rattle.fin_struct.specs.KripkeTables.{KripkeTables};

    ghost Value = { KripkeTables };

    ghost view = { λ v. v.kripke.now };
}

impl<'a> KripkeView<'a> {
    /// The view of a structure.
    pub fn new(kripke: &'a Kripke) -> KripkeView<'a>
        ensures { result ≡ kripke.now }
    {
        KripkeView { kripke }
    }

    /// The number of worlds.
    pub fn worlds(&self) -> u32
        ensures worlds { result ≡ self.now.worlds }
        ensures within { IsKripke self.now }
    {
        self.kripke.worlds()
    }

    /// The size of a sort of the signature, or 0 where there is none with this number.
    pub fn size(&self, sort: u32) -> u32
        ensures { result ≡ rows.size_at self.now.sizes sort }
    {
        self.kripke.size(sort)
    }

    /// The actual world.
    pub fn actual(&self) -> u32
        ensures actual { result ≡ self.now.actual }
        ensures below { result < self.now.worlds }
    {
        self.kripke.actual()
    }

    /// Whether world `to` is reached from world `from` for an index.
    pub fn related<L: Ledger>(&self, index: u32, from: u32, to: u32, steps: &mut Steps<L>) -> bool
        requires index_in { index < self.now.indexes }
        requires from_in { from < self.now.worlds }
        requires to_in { to < self.now.worlds }
        ensures cell { result ≡ related_in self.now index from to }
        ensures listed { result ≡ rows.has_row (from ∷ to ∷ []) (true_rows (relation_table self.now index)) }
        ensures step { steps.new ≡ steps.old + 1 }
    {
        steps.tick();
        self.kripke.related(index, from, to)
    }

    /// Whether an element of a sort exists at a world. In a constant sort each does.
    pub fn exists<L: Ledger>(
        &self,
        sort: u32,
        world: u32,
        element: u32,
        steps: &mut Steps<L>,
    ) -> bool
        requires sort_in { sort < length self.now.existence }
        requires world_in { world < self.now.worlds }
        requires element_in { element < rows.size_at self.now.sizes sort }
        ensures cell { result ≡ exists_in self.now sort world element }
        ensures listed { result ≡ listed_to_exist self.now sort world element }
        ensures step { steps.new ≡ steps.old + 1 }
    {
        steps.tick();
        self.kripke.exists(sort, world, element)
    }

    /// The value of a function at a world for these arguments. Where the function is rigid, the world is any number.
    pub fn value<L: Ledger>(
        &self,
        symbol: u32,
        world: u32,
        args: &[u32],
        steps: &mut Steps<L>,
    ) -> u32
        requires symbol_in { symbol < length self.now.world_first }
        requires function { IsSome (symbol_table self.now symbol).values }
        requires row_in { InRange (symbol_table self.now symbol).sizes (symbol_row self.now symbol world args.now) }
        ensures cell { result ≡ value_in self.now symbol world args.now }
        ensures listed { result ≡ rows.value_at_row (listed (symbol_table self.now symbol)) (symbol_row self.now symbol world args.now) }
        ensures below { result < bound_of (symbol_table self.now symbol).values }
        ensures step { steps.new ≡ steps.old + 1 }
    {
        steps.tick();
        self.kripke.value(symbol, world, args)
    }

    /// Whether a predicate holds at a world of these arguments.
    pub fn holds<L: Ledger>(
        &self,
        symbol: u32,
        world: u32,
        args: &[u32],
        steps: &mut Steps<L>,
    ) -> bool
        requires symbol_in { symbol < length self.now.world_first }
        requires predicate { (symbol_table self.now symbol).values ≡ None }
        requires row_in { InRange (symbol_table self.now symbol).sizes (world ∷ args.now) }
        ensures cell { result ≡ predicate_in self.now symbol world args.now }
        ensures listed { result ≡ rows.is_true_row (listed (symbol_table self.now symbol)) (world ∷ args.now) }
        ensures step { steps.new ≡ steps.old + 1 }
    {
        steps.tick();
        self.kripke.holds(symbol, world, args)
    }
}
