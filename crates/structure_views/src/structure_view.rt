//! Classical structures, as evaluators read them.
ghost use Rattle.std.specs.Prelude.{◌≡◌, ◌+◌, ◌<◌, length};
ghost use Rattle.nxf_tree.specs.Rows as rows;
ghost use Rattle.fin_struct.specs.Places.{InRange};
ghost use Rattle.fin_struct.specs.Cells.{table_at, cell, bound_of};
ghost use Rattle.fin_struct.specs.RowLists.{entry, listed};
ghost use Rattle.fin_struct.specs.StructureTables.{IsStructure};

use crate::steps::Steps;
use fin_struct::Structure;
use std::marker::Model;
use std::sync::ledger::Ledger;

/// A classical structure that can only be read, where each reading of a cell is one step. Contracts see the structure. No
/// call takes memory.
#[derive(Drop)]
pub struct StructureView<'a> {
    structure: &'a Structure,
}

impl<'a> Model for StructureView<'a> {
    ghost use Rattle.fin_struct.specs.StructureTables.{StructureTables};

    ghost Value = { StructureTables };

    ghost view = { λ v. v.structure.now };
}

impl<'a> StructureView<'a> {
    /// The view of a structure.
    pub fn new(structure: &'a Structure) -> StructureView<'a>
        ensures { result ≡ structure.now }
    {
        StructureView { structure }
    }

    /// The size of a sort of the classical signature, or 0 where there is none with this number.
    pub fn size(&self, sort: u32) -> u32
        ensures size { result ≡ rows.size_at self.now.sizes sort }
        ensures within { IsStructure self.now }
    {
        self.structure.size(sort)
    }

    /// The value of `mk_actual`.
    pub fn actual(&self) -> u32
        ensures actual { result ≡ self.now.actual }
        ensures below { result < rows.size_at self.now.sizes 0 }
    {
        self.structure.actual()
    }

    /// What a table has at the row of these arguments: 1 or 0 for a predicate, an element's number for a function.
    pub fn get<L: Ledger>(&self, table: u32, args: &[u32], steps: &mut Steps<L>) -> u32
        requires table_in { table < length self.now.tables }
        requires row_in { InRange (table_at self.now.tables table).sizes args.now }
        ensures value { result ≡ cell (table_at self.now.tables table) args.now }
        ensures listed { result ≡ entry (listed (table_at self.now.tables table)) args.now }
        ensures below { result < bound_of (table_at self.now.tables table).values }
        ensures step { steps.new ≡ steps.old + 1 }
    {
        steps.tick();
        self.structure.get(table, args)
    }
}
