//! Finite Kripke structures.
ghost use Rattle.std.specs.Prelude.{◌≡◌, ℕ, ◌+◌, ◌<◌, List, [], ◌∷◌, length, None, IsSome, IfSome, IfOk, IfErr, if◌then◌else◌};
ghost use Rattle.nxf_tree.specs.Rows as rows;
ghost use Rattle.nxf_tree.specs.ClassicalSignature.{classical_signature_of};
ghost use Rattle.nxf_tree.specs.Structures.{Corresponds};
ghost use Rattle.nxf_tree.specs.WellFormed.{IsWellFormed};
ghost use Rattle.fin_struct.specs.Limits.{RefusesShape, cells_in, cells_of, IsWithin};
ghost use Rattle.fin_struct.specs.Places.{InRange, row_under};
ghost use Rattle.fin_struct.specs.Cells.{cell, bound_of};
ghost use Rattle.fin_struct.specs.RowLists.{true_rows, listed, shapes_of, bit_of};
ghost use Rattle.fin_struct.specs.StructureTables.{IsFor, classical_structure};
ghost use Rattle.fin_struct.specs.Corresponding as meant;
ghost use Rattle.fin_struct.specs.ExistenceLists.{listed_to_exist};
ghost use Rattle.fin_struct.specs.KripkeTables.{kripke_structure, with_written, with_value, WrittenAlone, KripkeTables, IsKripke, IsKripkeFor, kripke_shapes, blank_kripke, others_of, relation_table, related_in, existence_number, existence_place, exists_in, symbol_number, symbol_table, symbol_row, value_in, predicate_in};

use crate::grid::Grid;
use crate::kripke_tables::{kripke_cells, kripke_shapes, number_tables, world_columns};
use crate::limits::{ShapeError, check_limits, size_at};
use crate::shapes::copy_sizes;
use crate::structure::Structure;
use nxf_base::{List, Memory};
use nxf_tree::Signature;
use std::alloc::{AllocError, Global};
use std::marker::Model;

/// A finite Kripke structure over a signature. Contracts see the worlds, the size of each sort and the tables of cells:
/// the relations first, then existence, then the symbols; `specs/KripkeTables` has the structure of the definitions that it
/// is.
#[derive(Drop)]
pub struct Kripke {
    worlds: u32,
    actual: u32,
    sizes: Vec<u32>,
    indexes: u32,
    existence: Vec<Option<u32>>,
    first_symbol: u32,
    world_first: Vec<bool>,
    grid: Grid,
}

impl Model for Kripke {
    ghost use Rattle.fin_struct.specs.KripkeTables.{KripkeTables, IsKripke};

    ghost Value = { KripkeTables };

    ghost view = { λ k. record { worlds = k.worlds; actual = k.actual; sizes = k.sizes.items; indexes = k.indexes; existence = k.existence.items; first_symbol = k.first_symbol; world_first = k.world_first.items; tables = k.grid } };

    ghost invariant = { λ k. IsKripke (record { worlds = k.worlds; actual = k.actual; sizes = k.sizes.items; indexes = k.indexes; existence = k.existence.items; first_symbol = k.first_symbol; world_first = k.world_first.items; tables = k.grid }) };
}

impl Kripke {
    /// A Kripke structure with one size, at least 1, for each sort, that of the worlds first: no pair, nobody exists in a
    /// sort that isn't constant, each function gives element 0, no row is true, and world 0 is the actual one. It is refused
    /// where the first size is above 65,535, else where `cells` gives more than 4,194,304 for the classical signature, else
    /// where there is no memory.
    pub fn new(alloc: Global, over: &Signature, sizes: &List<u32>) -> Result<Kripke, ShapeError>
        requires well_formed { IsWellFormed over.now }
        requires sizes { rows.AreSizes (classical_signature_of over.now).sorts sizes.now }
        ensures made { IfOk result (λ made. made ≡ blank_kripke over.now (rows.size_at sizes.now 0) (others_of sizes.now)) }
        ensures over { IfOk result (λ made. IsKripkeFor over.now made) }
        ensures within { IfOk result (λ made. IsKripke made) }
        ensures refused { IfErr result (RefusesShape (classical_signature_of over.now) sizes.now) }
    {
        let sizes = sizes.as_slice();
        check_sizes(over, sizes)?;
        match make(alloc, over, size_at(sizes, 0), other_sizes(sizes)) {
            Ok(made) => Ok(made),
            Err(AllocError) => Err(ShapeError::Memory),
        }
    }

    /// The Kripke structure over the signature that corresponds to a structure over its classical signature: the elements of
    /// `mk_world` are the worlds, and each table is copied whole. There is no other error than want of memory.
    pub fn lifted(alloc: Global, over: &Signature, structure: &Structure) -> Result<Kripke, Memory>
        requires well_formed { IsWellFormed over.now }
        requires over { IsFor (classical_signature_of over.now) structure.now }
        ensures made { IfOk result (λ made. made ≡ meant.lifted over.now structure.now) }
        ensures over { IfOk result (λ made. IsKripkeFor over.now made) }
        ensures within { IfOk result (λ made. IsKripke made) }
        ensures corresponds { IfOk result (λ made. Corresponds (kripke_structure made) (classical_structure structure.now)) }
        ensures undone { IfOk result (λ made. meant.lowered made ≡ structure.now) }
    {
        let worlds = structure.size(0);
        let actual = structure.actual();
        let sizes = copy_sizes(alloc, other_sizes(structure.sizes()))?;
        let indexes = over.indexes.len() as u32;
        let numbers = number_tables(alloc, indexes, over.sorts.as_slice())?;
        let world_first = world_columns(alloc, over.symbols.as_slice())?;
        let grid = structure.tables().copy(alloc)?;
        Ok(Kripke {
            worlds,
            actual,
            sizes,
            indexes,
            existence: numbers.existence,
            first_symbol: numbers.first_symbol,
            world_first,
            grid,
        })
    }

    /// The tables in their order: relations, existence, symbols.
    pub fn tables(&self) -> &Grid
        ensures { result.now ≡ self.now.tables }
    {
        &self.grid
    }

    /// The size of each sort of the signature.
    pub fn sizes(&self) -> &[u32]
        ensures { result.now ≡ self.now.sizes }
    {
        &self.sizes
    }

    /// The number of worlds.
    pub fn worlds(&self) -> u32
        ensures worlds { result ≡ self.now.worlds }
        ensures within { IsKripke self.now }
    {
        self.worlds
    }

    /// The size of a sort of the signature, or 0 where there is none with this number.
    pub fn size(&self, sort: u32) -> u32
        ensures { result ≡ rows.size_at self.now.sizes sort }
    {
        size_at(&self.sizes, sort)
    }

    /// The actual world.
    pub fn actual(&self) -> u32
        ensures actual { result ≡ self.now.actual }
        ensures below { result < self.now.worlds }
    {
        self.actual
    }

    /// Makes a world the actual one.
    pub fn set_actual(&mut self, world: u32)
        requires { world < self.old.worlds }
        ensures { self.new ≡ record self.old { actual = world } }
    {
        self.actual = world;
    }

    /// Whether world `to` is reached from world `from` for an index.
    pub fn related(&self, index: u32, from: u32, to: u32) -> bool
        requires index_in { index < self.now.indexes }
        requires from_in { from < self.now.worlds }
        requires to_in { to < self.now.worlds }
        ensures cell { result ≡ related_in self.now index from to }
        ensures listed { result ≡ rows.has_row (from ∷ to ∷ []) (true_rows (relation_table self.now index)) }
    {
        self.grid.get(index as usize, Some(from), &[to]) == 1
    }

    /// Writes whether world `to` is reached from world `from` for an index, and nothing else.
    pub fn set_related(&mut self, index: u32, from: u32, to: u32, yes: bool)
        requires index_in { index < self.old.indexes }
        requires from_in { from < self.old.worlds }
        requires to_in { to < self.old.worlds }
        ensures written { self.new ≡ with_written self.old index (from ∷ to ∷ []) (bit_of yes) }
        ensures there { related_in self.new index from to ≡ yes }
        ensures alone { WrittenAlone self.old self.new index (from ∷ to ∷ []) }
        ensures shapes { shapes_of self.new.tables ≡ shapes_of self.old.tables }
    {
        self.grid.set(index as usize, Some(from), &[to], bit(yes));
    }

    /// Whether an element of a sort exists at a world. In a constant sort each does.
    pub fn exists(&self, sort: u32, world: u32, element: u32) -> bool
        requires sort_in { sort < length self.now.existence }
        requires world_in { world < self.now.worlds }
        requires element_in { element < rows.size_at self.now.sizes sort }
        ensures cell { result ≡ exists_in self.now sort world element }
        ensures listed { result ≡ listed_to_exist self.now sort world element }
    {
        match self.existence[sort as usize] {
            None => true,
            Some(table) => self.grid.get(table as usize, Some(world), &[element]) == 1,
        }
    }

    /// Writes whether an element of a sort that isn't constant exists at a world, and nothing else.
    pub fn set_exists(&mut self, sort: u32, world: u32, element: u32, yes: bool)
        requires sort_in { sort < length self.old.existence }
        requires varying { IsSome (existence_number self.old sort) }
        requires world_in { world < self.old.worlds }
        requires element_in { element < rows.size_at self.old.sizes sort }
        ensures written { self.new ≡ with_written self.old (existence_place self.old sort) (world ∷ element ∷ []) (bit_of yes) }
        ensures there { exists_in self.new sort world element ≡ yes }
        ensures alone { WrittenAlone self.old self.new (existence_place self.old sort) (world ∷ element ∷ []) }
        ensures shapes { shapes_of self.new.tables ≡ shapes_of self.old.tables }
    {
        if let Some(table) = self.existence[sort as usize] {
            self.grid
                .set(table as usize, Some(world), &[element], bit(yes));
        }
    }

    /// The value of a function at a world for these arguments. Where the function is rigid, the world is any number.
    pub fn value(&self, symbol: u32, world: u32, args: &[u32]) -> u32
        requires symbol_in { symbol < length self.now.world_first }
        requires function { IsSome (symbol_table self.now symbol).values }
        requires row_in { InRange (symbol_table self.now symbol).sizes (symbol_row self.now symbol world args.now) }
        ensures cell { result ≡ value_in self.now symbol world args.now }
        ensures listed { result ≡ rows.value_at_row (listed (symbol_table self.now symbol)) (symbol_row self.now symbol world args.now) }
        ensures below { result < bound_of (symbol_table self.now symbol).values }
    {
        self.grid.get(
            self.table_of_symbol(symbol),
            self.world_of(symbol, world),
            args,
        )
    }

    /// Writes the value of a function at a world for these arguments, and nothing else. Where the function is rigid, the
    /// world is any number.
    pub fn set_value(&mut self, symbol: u32, world: u32, args: &[u32], element: u32)
        requires symbol_in { symbol < length self.old.world_first }
        requires function { IsSome (symbol_table self.old symbol).values }
        requires row_in { InRange (symbol_table self.old symbol).sizes (symbol_row self.old symbol world args.now) }
        requires below { element < bound_of (symbol_table self.old symbol).values }
        ensures written { self.new ≡ with_value self.old symbol world args.now element }
        ensures there { value_in self.new symbol world args.now ≡ element }
        ensures alone { WrittenAlone self.old self.new (symbol_number self.old symbol) (symbol_row self.old symbol world args.now) }
        ensures shapes { shapes_of self.new.tables ≡ shapes_of self.old.tables }
    {
        let table = self.table_of_symbol(symbol);
        let world = self.world_of(symbol, world);
        self.grid.set(table, world, args, element);
    }

    /// Whether a predicate holds at a world of these arguments.
    pub fn holds(&self, symbol: u32, world: u32, args: &[u32]) -> bool
        requires symbol_in { symbol < length self.now.world_first }
        requires predicate { (symbol_table self.now symbol).values ≡ None }
        requires row_in { InRange (symbol_table self.now symbol).sizes (world ∷ args.now) }
        ensures cell { result ≡ predicate_in self.now symbol world args.now }
        ensures listed { result ≡ rows.is_true_row (listed (symbol_table self.now symbol)) (world ∷ args.now) }
    {
        self.grid
            .get(self.table_of_symbol(symbol), Some(world), args)
            == 1
    }

    /// Writes whether a predicate holds at a world of these arguments, and nothing else.
    pub fn set_holds(&mut self, symbol: u32, world: u32, args: &[u32], yes: bool)
        requires symbol_in { symbol < length self.old.world_first }
        requires predicate { (symbol_table self.old symbol).values ≡ None }
        requires row_in { InRange (symbol_table self.old symbol).sizes (world ∷ args.now) }
        ensures written { self.new ≡ with_written self.old (symbol_number self.old symbol) (world ∷ args.now) (bit_of yes) }
        ensures there { predicate_in self.new symbol world args.now ≡ yes }
        ensures alone { WrittenAlone self.old self.new (symbol_number self.old symbol) (world ∷ args.now) }
        ensures shapes { shapes_of self.new.tables ≡ shapes_of self.old.tables }
    {
        let table = self.table_of_symbol(symbol);
        self.grid.set(table, Some(world), args, bit(yes));
    }

    /// The number of a symbol's table among all tables.
    pub fn table_of_symbol(&self, symbol: u32) -> usize
        requires { symbol < length self.now.world_first }
        ensures number { result ≡ symbol_number self.now symbol }
        ensures there { result < length self.now.tables }
    {
        self.first_symbol as usize + symbol as usize
    }

    /// The number of the table of existence in a sort among all tables. A constant sort has none.
    pub fn table_of_sort(&self, sort: u32) -> Option<usize>
        requires { sort < length self.now.existence }
        ensures number { result ≡ existence_number self.now sort }
        ensures there { IfSome result (λ table. table < length self.now.tables) }
    {
        match self.existence[sort as usize] {
            Some(table) => Some(table as usize),
            None => None,
        }
    }

    // The world, where the symbol's rows have one in front.
    fn world_of(&self, symbol: u32, world: u32) -> Option<u32>
        requires { symbol < length self.now.world_first }
        ensures { (args : List ℕ) → row_under result args ≡ symbol_row self.now symbol world args }
    {
        if self.world_first[symbol as usize] {
            Some(world)
        } else {
            None
        }
    }
}

// Refuses more than 65,535 worlds, and then more than 4,194,304 cells.
fn check_sizes(over: &Signature, sizes: &[u32]) -> Result<(), ShapeError>
    requires well_formed { IsWellFormed over.now }
    requires sizes { rows.AreSizes (classical_signature_of over.now).sorts sizes.now }
    ensures within { IfOk result (λ _. IsWithin (rows.size_at sizes.now 0) (cells_in (kripke_shapes over.now (rows.size_at sizes.now 0) (others_of sizes.now)))) }
    ensures counted { IfOk result (λ _. IsWithin (rows.size_at sizes.now 0) (cells_of (classical_signature_of over.now) sizes.now)) }
    ensures refused { IfErr result (RefusesShape (classical_signature_of over.now) sizes.now) }
{
    let worlds = size_at(sizes, 0);
    let cells = kripke_cells(over, worlds, other_sizes(sizes));
    check_limits(worlds, cells)
}

// All sizes but the first.
fn other_sizes(sizes: &[u32]) -> &[u32]
    ensures { result.now ≡ others_of sizes.now }
{
    match sizes.split_first() {
        Some((_, others)) => others,
        None => sizes,
    }
}

// The structure with nothing written, within the limits.
fn make(alloc: Global, over: &Signature, worlds: u32, sizes: &[u32]) -> Result<Kripke, AllocError>
    requires well_formed { IsWellFormed over.now }
    requires sizes { rows.AreSizes (classical_signature_of over.now).sorts (worlds ∷ sizes.now) }
    requires within { IsWithin worlds (cells_in (kripke_shapes over.now worlds sizes.now)) }
    ensures made { IfOk result (λ made. made ≡ blank_kripke over.now worlds sizes.now) }
    ensures over { IfOk result (λ made. IsKripkeFor over.now made) }
    ensures within { IfOk result (λ made. IsKripke made) }
{
    let indexes = over.indexes.len() as u32;
    let numbers = number_tables(alloc, indexes, over.sorts.as_slice())?;
    let world_first = world_columns(alloc, over.symbols.as_slice())?;
    let shapes = kripke_shapes(alloc, over, worlds, sizes)?;
    let grid = Grid::new(alloc, shapes)?;
    let sizes = copy_sizes(alloc, sizes)?;
    Ok(Kripke {
        worlds,
        actual: 0,
        sizes,
        indexes,
        existence: numbers.existence,
        first_symbol: numbers.first_symbol,
        world_first,
        grid,
    })
}

// The cell of a row that stands in a table, or of one that doesn't.
fn bit(yes: bool) -> u32
    ensures { result ≡ bit_of yes }
{
    if yes { 1 } else { 0 }
}
