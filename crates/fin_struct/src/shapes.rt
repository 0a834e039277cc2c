//! The shapes of the tables of a structure with given sizes.
ghost use Rattle.std.specs.Prelude.{◌≡◌, map, IfOk};
ghost use Rattle.std.specs.Option.{option_map};
ghost use Rattle.nxf_tree.specs.Rows as rows;
ghost use Rattle.nxf_tree.specs.Structures as structures;
ghost use Rattle.fin_struct.specs.Cells.{grid_shape};

use crate::grid::GridShape;
use crate::limits::size_at;
use nxf_tree::TableEntry;
use std::alloc::{AllocError, Global};

/// The shapes of the tables of a classical signature.
pub fn table_shapes(
    alloc: Global,
    tables: &[TableEntry],
    sizes: &[u32],
) -> Result<Vec<GridShape>, AllocError>
    ensures { IfOk result (λ shapes. map grid_shape shapes.items ≡ structures.table_shapes sizes.now tables.now) }
{
    let mut shapes = Vec::new(alloc);
    for table in tables {
        shapes.push(table_shape(alloc, table, sizes)?)?;
    }
    Ok(shapes)
}

fn table_shape(alloc: Global, table: &TableEntry, sizes: &[u32]) -> Result<GridShape, AllocError>
    ensures { IfOk result (λ shape. grid_shape shape ≡ structures.table_shape sizes.now table.now) }
{
    let values = values_size(sizes, table.gives);
    let sizes = sizes_of(alloc, sizes, table.args.as_slice())?;
    Ok(GridShape { sizes, values })
}

/// The size of the sort of a function's values.
pub fn values_size(sizes: &[u32], gives: Option<u32>) -> Option<u32>
    ensures { result ≡ option_map (rows.size_at sizes.now) gives }
{
    match gives {
        Some(sort) => Some(size_at(sizes, sort)),
        None => None,
    }
}

/// The sizes of these sorts.
pub fn sizes_of(alloc: Global, sizes: &[u32], sorts: &[u32]) -> Result<Vec<u32>, AllocError>
    ensures { IfOk result (λ found. found.items ≡ map (rows.size_at sizes.now) sorts.now) }
{
    let mut found = Vec::new(alloc);
    for sort in sorts {
        found.push(size_at(sizes, *sort))?;
    }
    Ok(found)
}

/// The same sizes, in memory of their own.
pub fn copy_sizes(alloc: Global, sizes: &[u32]) -> Result<Vec<u32>, AllocError>
    ensures { IfOk result (λ copy. copy.items ≡ sizes.now) }
{
    sizes.to_vec(alloc)
}
