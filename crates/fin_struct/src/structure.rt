//! Finite classical structures.
ghost use Rattle.std.specs.Prelude.{◌≡◌, ◌<◌, ◌∷◌, List, length, IfOk, IfErr};
ghost use Rattle.nxf_tree.specs.declared.tree.Signature.{Signature};
ghost use Rattle.nxf_tree.specs.ClassicalSignature.{classical_signature_of};
ghost use Rattle.nxf_tree.specs.Rows as rows;
ghost use Rattle.nxf_tree.specs.Structures.{Corresponds};
ghost use Rattle.classical_signature_laws.specs.ClassicalSignatures.{HasSorts};
ghost use Rattle.fin_struct.specs.Places.{InRange};
ghost use Rattle.fin_struct.specs.Cells.{with_row, OthersStay, table_at, cell, bound_of};
ghost use Rattle.fin_struct.specs.RowLists.{entry, listed, shapes_of};
ghost use Rattle.fin_struct.specs.Limits.{RefusesShape, cells_of, IsWithin};
ghost use Rattle.fin_struct.specs.StructureTables.{IsStructure, IsFor, blank_structure, classical_structure};
ghost use Rattle.fin_struct.specs.Corresponding as meant;
ghost use Rattle.fin_struct.specs.KripkeTables.{IsKripkeFor, kripke_structure};

use crate::grid::Grid;
use crate::kripke::Kripke;
use crate::limits::{ShapeError, cells, check_limits, size_at};
use crate::shapes::{copy_sizes, table_shapes};
use nxf_base::{List, Memory};
use nxf_tree::ClassicalSignature;
use std::alloc::{AllocError, Global};
use std::marker::Model;

/// A finite structure over a classical signature. Contracts see the value of `mk_actual`, the size of each sort,
/// `mk_world` first, and the tables of cells in the order of the signature; `specs/StructureTables` has the structure of the
/// definitions that it is.
#[derive(Drop)]
pub struct Structure {
    actual: u32,
    sizes: Vec<u32>,
    grid: Grid,
}

impl Model for Structure {
    ghost use Rattle.fin_struct.specs.StructureTables.{StructureTables, IsStructure};

    ghost Value = { StructureTables };

    ghost view = { λ s. record { actual = s.actual; sizes = s.sizes.items; tables = s.grid } };

    ghost invariant = { λ s. IsStructure (record { actual = s.actual; sizes = s.sizes.items; tables = s.grid }) };
}

impl Structure {
    /// A structure with one size, at least 1, for each sort, `mk_world` first: all cells 0, actual world 0. It is refused
    /// where the first size is above 65,535, else where `cells` gives more than 4,194,304, else where there is no memory.
    pub fn new(
        alloc: Global,
        over: &ClassicalSignature,
        sizes: &List<u32>,
    ) -> Result<Structure, ShapeError>
        requires has_sorts { HasSorts over.now }
        requires sizes { rows.AreSizes over.now.sorts sizes.now }
        ensures made { IfOk result (λ made. made ≡ blank_structure over.now sizes.now) }
        ensures over { IfOk result (λ made. IsFor over.now made) }
        ensures within { IfOk result (λ made. IsStructure made) }
        ensures refused { IfErr result (RefusesShape over.now sizes.now) }
    {
        check_limits(size_at(sizes.as_slice(), 0), cells(over, sizes))?;
        match make(alloc, over, sizes.as_slice()) {
            Ok(made) => Ok(made),
            Err(AllocError) => Err(ShapeError::Memory),
        }
    }

    /// The structure over the classical signature that corresponds to a Kripke structure: the worlds are the elements of
    /// `mk_world`, and each table is copied whole. There is no other error than want of memory.
    pub fn lowered(alloc: Global, kripke: &Kripke) -> Result<Structure, Memory>
        ensures made { IfOk result (λ made. made ≡ meant.lowered kripke.now) }
        ensures over { IfOk result (λ made. (sig : Signature) → IsKripkeFor sig kripke.now → IsFor (classical_signature_of sig) made) }
        ensures within { IfOk result (λ made. IsStructure made) }
        ensures corresponds { IfOk result (λ made. Corresponds (kripke_structure kripke.now) (classical_structure made)) }
        ensures undone { IfOk result (λ made. (sig : Signature) → IsKripkeFor sig kripke.now → meant.lifted sig made ≡ kripke.now) }
    {
        let actual = kripke.actual();
        let sizes = sizes_behind(alloc, kripke.worlds(), kripke.sizes())?;
        let grid = kripke.tables().copy(alloc)?;
        Ok(Structure {
            actual,
            sizes,
            grid,
        })
    }

    /// The tables in the order of the classical signature.
    pub fn tables(&self) -> &Grid
        ensures { result.now ≡ self.now.tables }
    {
        &self.grid
    }

    /// The size of each sort of the classical signature.
    pub fn sizes(&self) -> &[u32]
        ensures { result.now ≡ self.now.sizes }
    {
        &self.sizes
    }

    /// The size of a sort of the classical signature, or 0 where there is none with this number.
    pub fn size(&self, sort: u32) -> u32
        ensures size { result ≡ rows.size_at self.now.sizes sort }
        ensures within { IsStructure self.now }
    {
        size_at(&self.sizes, sort)
    }

    /// The value of `mk_actual`.
    pub fn actual(&self) -> u32
        ensures actual { result ≡ self.now.actual }
        ensures below { result < rows.size_at self.now.sizes 0 }
    {
        self.actual
    }

    /// Makes a world the value of `mk_actual`.
    pub fn set_actual(&mut self, world: u32)
        requires { world < rows.size_at self.old.sizes 0 }
        ensures { self.new ≡ record self.old { actual = world } }
    {
        self.actual = world;
    }

    /// What a table has at the row of these arguments: 1 or 0 for a predicate, an element's number for a function.
    pub fn get(&self, table: u32, args: &[u32]) -> u32
        requires table_in { table < length self.now.tables }
        requires row_in { InRange (table_at self.now.tables table).sizes args.now }
        ensures value { result ≡ cell (table_at self.now.tables table) args.now }
        ensures listed { result ≡ entry (listed (table_at self.now.tables table)) args.now }
        ensures below { result < bound_of (table_at self.now.tables table).values }
    {
        self.grid.get(table as usize, None, args)
    }

    /// Writes what a table has at the row of these arguments, and no other cell.
    pub fn set(&mut self, table: u32, args: &[u32], value: u32)
        requires table_in { table < length self.old.tables }
        requires row_in { InRange (table_at self.old.tables table).sizes args.now }
        requires below { value < bound_of (table_at self.old.tables table).values }
        ensures written { self.new ≡ record self.old { tables = with_row self.old.tables table args.now value } }
        ensures there { cell (table_at self.new.tables table) args.now ≡ value }
        ensures alone { OthersStay self.old.tables self.new.tables table args.now }
        ensures shapes { shapes_of self.new.tables ≡ shapes_of self.old.tables }
    {
        self.grid.set(table as usize, None, args, value);
    }
}

/// The structure with all cells 0, within the limits.
fn make(alloc: Global, over: &ClassicalSignature, sizes: &[u32]) -> Result<Structure, AllocError>
    requires has_sorts { HasSorts over.now }
    requires sizes { rows.AreSizes over.now.sorts sizes.now }
    requires within { IsWithin (rows.size_at sizes.now 0) (cells_of over.now sizes.now) }
    ensures made { IfOk result (λ made. made ≡ blank_structure over.now sizes.now) }
    ensures over { IfOk result (λ made. IsFor over.now made) }
    ensures within { IfOk result (λ made. IsStructure made) }
{
    let shapes = table_shapes(alloc, over.tables.as_slice(), sizes)?;
    let grid = Grid::new(alloc, shapes)?;
    let sizes = copy_sizes(alloc, sizes)?;
    Ok(Structure {
        actual: 0,
        sizes,
        grid,
    })
}

/// The sizes, behind a first one.
fn sizes_behind(alloc: Global, first: u32, sizes: &[u32]) -> Result<Vec<u32>, AllocError>
    ensures { IfOk result (λ all. all.items ≡ first ∷ sizes.now) }
{
    let mut all = Vec::with_capacity(alloc, sizes.len().saturating_add(1))?;
    all.push(first)?;
    all.extend_from_slice(sizes)?;
    Ok(all)
}
