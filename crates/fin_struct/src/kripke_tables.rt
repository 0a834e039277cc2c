//! The tables of a Kripke structure with given sizes: relations, existence and symbols.
ghost use Rattle.std.specs.Prelude.{◌≡◌, ◌+◌, ◌++◌, ◌≤◌, ◌^◌, ◌∷◌, [], map, min, length, None, Some, if◌then◌else◌, IfOk, OnOk};
ghost use Rattle.nxf_tree.specs.Rows as rows;
ghost use Rattle.nxf_tree.specs.Signature as meant;
ghost use Rattle.nxf_tree.specs.Structures as structures;
ghost use Rattle.nxf_tree.specs.WellFormed.{IsWellFormed};
ghost use Rattle.fin_struct.specs.Places.{rows_count};
ghost use Rattle.fin_struct.specs.Cells.{grid_shape};
ghost use Rattle.fin_struct.specs.Limits.{cells_in};
ghost use Rattle.fin_struct.specs.KripkeTables as view;
ghost use Rattle.fin_struct.specs.KripkeTables.{pairs_shape, numbers_from};

use crate::grid::GridShape;
use crate::limits::{size_at, table_rows};
use crate::shapes::values_size;
use classical_signatures::takes_world;
use classical_syntax::is_constant_regime;
use nxf_tree::{IndexEntry, Regime, Signature, SortEntry, SymbolEntry};
use std::alloc::{AllocError, Global};

/// The number of cells of a Kripke structure, or `u64::MAX` where that is greater. It takes no memory.
pub fn kripke_cells(over: &Signature, worlds: u32, sizes: &[u32]) -> u64
    requires { IsWellFormed over.now }
    ensures { result ≡ min (cells_in (view.kripke_shapes over.now worlds sizes.now)) 18446744073709551615 }
{
    relation_cells(over.indexes.as_slice(), worlds)
        .saturating_add(existence_cells(over.sorts.as_slice(), worlds, sizes))
        .saturating_add(symbol_cells(over.symbols.as_slice(), worlds, sizes))
}

fn pair_cells(first: u32, second: u32) -> u64
    ensures { result ≡ rows_count (pairs_shape first second).sizes }
{
    u64::from(first) * u64::from(second)
}

fn relation_cells(indexes: &[IndexEntry], worlds: u32) -> u64
    ensures { result ≡ min (cells_in (structures.relation_shapes worlds indexes.now)) 18446744073709551615 }
{
    (indexes.len() as u64).saturating_mul(pair_cells(worlds, worlds))
}

fn existence_cells(sorts: &[SortEntry], worlds: u32, sizes: &[u32]) -> u64
    requires { length sorts.now ≤ 2 ^ 31 }
    ensures { result ≡ min (cells_in (structures.existence_shapes worlds sizes.now 0 sorts.now)) 18446744073709551615 }
{
    let mut total: u64 = 0;
    for (place, sort) in sorts.iter().enumerate() {
        let size = size_at(sizes, place as u32);
        total = total.saturating_add(sort_cells(sort.regime, worlds, size));
    }
    total
}

// The cells of the table of existence in a sort; a constant one has no table.
fn sort_cells(regime: Regime, worlds: u32, size: u32) -> u64
    ensures { result ≡ (if meant.constant_regime regime then 0 else rows_count (pairs_shape worlds size).sizes) }
{
    if is_constant_regime(regime) {
        0
    } else {
        pair_cells(worlds, size)
    }
}

fn symbol_cells(symbols: &[SymbolEntry], worlds: u32, sizes: &[u32]) -> u64
    ensures { result ≡ min (cells_in (structures.symbol_shapes worlds sizes.now symbols.now)) 18446744073709551615 }
{
    let mut total: u64 = 0;
    for symbol in symbols {
        total = total.saturating_add(symbol_rows(symbol, worlds, sizes));
    }
    total
}

fn symbol_rows(symbol: &SymbolEntry, worlds: u32, sizes: &[u32]) -> u64
    ensures { result ≡ min (rows_count (structures.symbol_shape worlds sizes.now symbol.now).sizes) 18446744073709551615 }
{
    let rows = table_rows(sizes, symbol.args.as_slice());
    if takes_world(symbol) {
        rows.saturating_mul(u64::from(worlds))
    } else {
        rows
    }
}

/// The shapes of the tables of a Kripke structure in their order: relations, existence, symbols.
pub fn kripke_shapes(
    alloc: Global,
    over: &Signature,
    worlds: u32,
    sizes: &[u32],
) -> Result<Vec<GridShape>, AllocError>
    requires { IsWellFormed over.now }
    ensures { IfOk result (λ shapes. map grid_shape shapes.items ≡ view.kripke_shapes over.now worlds sizes.now) }
{
    let mut shapes = Vec::new(alloc);
    add_relations(alloc, worlds, over.indexes.as_slice(), &mut shapes)?;
    add_existences(alloc, worlds, sizes, over.sorts.as_slice(), &mut shapes)?;
    add_symbols(alloc, worlds, sizes, over.symbols.as_slice(), &mut shapes)?;
    Ok(shapes)
}

fn pair_shape(alloc: Global, first: u32, second: u32) -> Result<GridShape, AllocError>
    ensures { IfOk result (λ shape. grid_shape shape ≡ pairs_shape first second) }
{
    let mut sizes = Vec::new(alloc);
    sizes.push(first)?;
    sizes.push(second)?;
    Ok(GridShape {
        sizes,
        values: None,
    })
}

fn add_relations(
    alloc: Global,
    worlds: u32,
    indexes: &[IndexEntry],
    shapes: &mut Vec<GridShape>,
) -> Result<(), AllocError>
    ensures { OnOk result (map grid_shape shapes.new.items ≡ map grid_shape shapes.old.items ++ structures.relation_shapes worlds indexes.now) }
{
    for _index in indexes {
        shapes.push(pair_shape(alloc, worlds, worlds)?)?;
    }
    Ok(())
}

fn add_existences(
    alloc: Global,
    worlds: u32,
    sizes: &[u32],
    sorts: &[SortEntry],
    shapes: &mut Vec<GridShape>,
) -> Result<(), AllocError>
    requires { length sorts.now ≤ 2 ^ 31 }
    ensures { OnOk result (map grid_shape shapes.new.items ≡ map grid_shape shapes.old.items ++ structures.existence_shapes worlds sizes.now 0 sorts.now) }
{
    for (place, sort) in sorts.iter().enumerate() {
        let size = size_at(sizes, place as u32);
        add_existence(alloc, sort.regime, worlds, size, shapes)?;
    }
    Ok(())
}

// Adds the shape of the table of existence in a sort, unless the sort is constant.
fn add_existence(
    alloc: Global,
    regime: Regime,
    worlds: u32,
    size: u32,
    shapes: &mut Vec<GridShape>,
) -> Result<(), AllocError>
    ensures { OnOk result (map grid_shape shapes.new.items ≡ map grid_shape shapes.old.items ++ (if meant.constant_regime regime then [] else pairs_shape worlds size ∷ [])) }
{
    if is_constant_regime(regime) {
        return Ok(());
    }
    shapes.push(pair_shape(alloc, worlds, size)?)?;
    Ok(())
}

fn add_symbols(
    alloc: Global,
    worlds: u32,
    sizes: &[u32],
    symbols: &[SymbolEntry],
    shapes: &mut Vec<GridShape>,
) -> Result<(), AllocError>
    ensures { OnOk result (map grid_shape shapes.new.items ≡ map grid_shape shapes.old.items ++ structures.symbol_shapes worlds sizes.now symbols.now) }
{
    for symbol in symbols {
        shapes.push(symbol_shape(alloc, worlds, sizes, symbol)?)?;
    }
    Ok(())
}

fn symbol_shape(
    alloc: Global,
    worlds: u32,
    sizes: &[u32],
    symbol: &SymbolEntry,
) -> Result<GridShape, AllocError>
    ensures { IfOk result (λ shape. grid_shape shape ≡ structures.symbol_shape worlds sizes.now symbol.now) }
{
    let values = values_size(sizes, symbol.gives);
    let front = world_front(alloc, takes_world(symbol), worlds)?;
    let sizes = with_sizes(front, sizes, symbol.args.as_slice())?;
    Ok(GridShape { sizes, values })
}

// The number of worlds, or no number.
fn world_front(alloc: Global, with_world: bool, worlds: u32) -> Result<Vec<u32>, AllocError>
    ensures { IfOk result (λ front. front.items ≡ (if with_world then worlds ∷ [] else [])) }
{
    let mut front = Vec::new(alloc);
    if with_world {
        front.push(worlds)?;
    }
    Ok(front)
}

// Appends the sizes of these sorts.
fn with_sizes(mut front: Vec<u32>, sizes: &[u32], sorts: &[u32]) -> Result<Vec<u32>, AllocError>
    ensures { IfOk result (λ all. all.items ≡ front.items ++ map (rows.size_at sizes.now) sorts.now) }
{
    for sort in sorts {
        front.push(size_at(sizes, *sort))?;
    }
    Ok(front)
}

/// Whether the rows of each symbol have a world in front.
pub fn world_columns(alloc: Global, symbols: &[SymbolEntry]) -> Result<Vec<bool>, AllocError>
    ensures { IfOk result (λ found. found.items ≡ map meant.takes_world symbols.now) }
{
    let mut found = Vec::new(alloc);
    for symbol in symbols {
        found.push(takes_world(symbol))?;
    }
    Ok(found)
}

/// The number of each sort's table of existence, and of the first symbol's table.
#[derive(Drop)]
pub struct TableNumbers {
    pub existence: Vec<Option<u32>>,
    pub first_symbol: u32,
}

/// Numbers the tables of existence from `first` on; those of the symbols come next.
pub fn number_tables(
    alloc: Global,
    first: u32,
    sorts: &[SortEntry],
) -> Result<TableNumbers, AllocError>
    requires { first + length sorts.now ≤ 2 ^ 31 }
    ensures existence { IfOk result (λ made. made.existence.items ≡ numbers_from first sorts.now) }
    ensures first_symbol { IfOk result (λ made. made.first_symbol ≡ first + length (meant.existence_sorts sorts.now)) }
{
    let mut existence = Vec::new(alloc);
    let mut next = first;
    for sort in sorts {
        existence.push(take_number(sort.regime, &mut next))?;
    }
    Ok(TableNumbers {
        existence,
        first_symbol: next,
    })
}

// The number of a sort's table of existence, where `next` is that of the next table. A constant sort has none.
fn take_number(regime: Regime, next: &mut u32) -> Option<u32>
    requires { next.old ≤ 2 ^ 31 }
    ensures number { result ≡ (if meant.constant_regime regime then None else Some next.old) }
    ensures next { next.new ≡ (if meant.constant_regime regime then next.old else next.old + 1) }
{
    if is_constant_regime(regime) {
        return None;
    }
    let number = *next;
    *next += 1;
    Some(number)
}
