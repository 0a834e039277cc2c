//! Tables whose cells stand in one list, one table after the other.
ghost use Rattle.std.specs.Prelude.{◌≡◌, ◌+◌, ◌<◌, ◌≤◌, List, length, take, drop, IfOk};
ghost use Rattle.fin_struct.specs.Places.{InRange, place};
ghost use Rattle.fin_struct.specs.Cells.{with_row, OthersStay, ShapesStay, CellTable, bound_of, table_at, cell, total_rows, blank_tables, sizes_at, start_of, starts_of, AllPositive, SameShapes};
ghost use Rattle.fin_struct.specs.Places.{row_under};
ghost use Rattle.nxf_tree.specs.Rows.{all_rows};

use crate::places::{count_rows, place_under};
use crate::rows::Rows;
use nxf_base::Memory;
use std::alloc::{AllocError, Global};
use std::marker::Model;

/// What a table is: the sizes of its arguments' sorts, and for a function the size of the sort of its values.
#[derive(Drop)]
pub struct GridShape {
    pub sizes: Vec<u32>,
    pub values: Option<u32>,
}

/// Where the cell of a table's row stands in the flat list.
fn cell_place(
    shapes: &[GridShape],
    starts: &[usize],
    table: usize,
    world: Option<u32>,
    args: &[u32],
) -> usize
    requires table_in { table < length shapes.now }
    requires starts_kept { starts.now ≡ starts_of 0 shapes.now }
    requires small { total_rows shapes.now ≤ 4194304 }
    requires row_in { InRange (sizes_at shapes.now table) (row_under world args.now) }
    ensures { result ≡ start_of shapes.now table + place (sizes_at shapes.now table) (row_under world args.now) }
{
    starts[table] + place_under(&shapes[table].sizes, world, args)
}

fn copy_numbers(alloc: Global, numbers: &[u32]) -> Result<Vec<u32>, AllocError>
    ensures { IfOk result (λ copy. copy.items ≡ numbers.now) }
{
    numbers.to_vec(alloc)
}

fn copy_places(alloc: Global, places: &[usize]) -> Result<Vec<usize>, AllocError>
    ensures { IfOk result (λ copy. copy.items ≡ places.now) }
{
    places.to_vec(alloc)
}

/// The same shapes, in memory of their own.
fn copy_shapes(alloc: Global, shapes: &[GridShape]) -> Result<Vec<GridShape>, AllocError>
    ensures { IfOk result (λ copies. SameShapes copies.items shapes.now) }
{
    let mut copies = Vec::new(alloc);
    for shape in shapes {
        let sizes = copy_numbers(alloc, &shape.sizes)?;
        copies.push(GridShape {
            sizes,
            values: shape.values,
        })?;
    }
    Ok(copies)
}

/// That many cells, from the first of a table on.
fn cells_from(cells: &[u32], first: usize, count: usize) -> &[u32]
    requires { first + count ≤ length cells.now }
    ensures { result.now ≡ take count (drop first cells.now) }
{
    &cells[first..first + count]
}

/// Tables, whose cells stand in one list.
#[derive(Drop)]
pub struct Grid {
    shapes: Vec<GridShape>,
    starts: Vec<usize>,
    cells: Vec<u32>,
}

impl Model for Grid {
    ghost use Rattle.std.specs.Prelude.{◌≡◌, ◌≤◌, List, length};
    ghost use Rattle.fin_struct.specs.Cells.{CellTable, tables_of, starts_of, total_rows, Bounded};

    ghost Value = { List CellTable };

    ghost view = { λ g. tables_of g.shapes.items g.cells.items };

    ghost invariant = { λ g. (g.starts.items ≡ starts_of 0 g.shapes.items) × (length g.cells.items ≡ total_rows g.shapes.items) × (total_rows g.shapes.items ≤ 4194304) × Bounded g.shapes.items g.cells.items };
}

impl Grid {
    /// Tables with these shapes, all cells 0.
    pub fn new(alloc: Global, shapes: Vec<GridShape>) -> Result<Grid, AllocError>
        requires positive { AllPositive shapes.items }
        requires small { total_rows shapes.items ≤ 4194304 }
        ensures { IfOk result (λ g. g ≡ blank_tables shapes.items) }
    {
        let mut starts = Vec::new(alloc);
        let mut at: usize = 0;
        for shape in &shapes {
            starts.push(at)?;
            at += count_rows(&shape.sizes) as usize;
        }
        let cells = vec![in alloc; 0; at]?;
        Ok(Grid {
            shapes,
            starts,
            cells,
        })
    }

    /// The same tables, in memory of their own.
    pub fn copy(&self, alloc: Global) -> Result<Grid, AllocError>
        ensures { IfOk result (λ g. g ≡ self.now) }
    {
        let shapes = copy_shapes(alloc, &self.shapes)?;
        let starts = copy_places(alloc, &self.starts)?;
        let cells = copy_numbers(alloc, &self.cells)?;
        Ok(Grid {
            shapes,
            starts,
            cells,
        })
    }

    /// A walk over the rows of a table.
    pub fn rows(&self, alloc: Global, table: usize) -> Result<Rows, Memory>
        requires { table < length self.now }
        ensures { IfOk result (λ rows. rows ≡ all_rows (table_at self.now table).sizes) }
    {
        Rows::new(alloc, &self.shapes[table].sizes)
    }

    /// The cells of a table, in the order of its rows.
    pub fn cells(&self, table: usize) -> &[u32]
        requires { table < length self.now }
        ensures { result.now ≡ (table_at self.now table).cells }
    {
        let first = self.starts[table];
        let count = count_rows(&self.shapes[table].sizes) as usize;
        cells_from(&self.cells, first, count)
    }

    /// What the table has at the row of the arguments, after the world where there is one.
    pub fn get(&self, table: usize, world: Option<u32>, args: &[u32]) -> u32
        requires table_in { table < length self.now }
        requires row_in { InRange (table_at self.now table).sizes (row_under world args.now) }
        ensures value { result ≡ cell (table_at self.now table) (row_under world args.now) }
        ensures below { result < bound_of (table_at self.now table).values }
    {
        self.cells[cell_place(&self.shapes, &self.starts, table, world, args)]
    }

    /// Writes the cell of a table at the row of the arguments, after the world where there is one, and no other cell.
    pub fn set(&mut self, table: usize, world: Option<u32>, args: &[u32], value: u32)
        requires table_in { table < length self.old }
        requires row_in { InRange (table_at self.old table).sizes (row_under world args.now) }
        requires below { value < bound_of (table_at self.old table).values }
        ensures written { self.new ≡ with_row self.old table (row_under world args.now) value }
        ensures there { cell (table_at self.new table) (row_under world args.now) ≡ value }
        ensures alone { OthersStay self.old self.new table (row_under world args.now) }
        ensures shapes { ShapesStay self.old self.new }
    {
        let at = cell_place(&self.shapes, &self.starts, table, world, args);
        self.cells[at] = value;
    }
}
