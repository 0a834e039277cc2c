//! The number of cells of a structure, and the limits on structures.
ghost use Rattle.std.specs.Prelude.{◌≡◌, map, min, IfOk, IfErr};
ghost use Rattle.nxf_tree.specs.Rows as rows;
ghost use Rattle.fin_struct.specs.Places.{rows_count};
ghost use Rattle.fin_struct.specs.Limits.{cells_of, IsWithin, IsRefusal};

use nxf_base::List;
use nxf_tree::ClassicalSignature;

/// Why there is no structure with given sizes: the number of worlds is above 65,535, or the number of cells is above
/// 4,194,304, or there is no memory.
#[derive(Clone, Copy, Debug, PartialEq, Eq)]
pub enum ShapeError {
    TooManyWorlds(u64),
    TooBig(u64),
    Memory,
}

/// The size of the sort with the number, or 0 where there is none.
pub fn size_at(sizes: &[u32], sort: u32) -> u32
    ensures { result ≡ rows.size_at sizes.now sort }
{
    match sizes.get(sort as usize) {
        Some(size) => *size,
        None => 0,
    }
}

/// The number of rows over sorts of these sizes, or `u64::MAX` where that is greater.
pub fn table_rows(sizes: &[u32], sorts: &[u32]) -> u64
    ensures { result ≡ min (rows_count (map (rows.size_at sizes.now) sorts.now)) 18446744073709551615 }
{
    let mut count: u64 = 1;
    for sort in sorts {
        count = count.saturating_mul(u64::from(size_at(sizes, *sort)));
    }
    count
}

/// The number of cells of a structure over the classical signature with these sizes of sorts: the sum over the tables of
/// the products of the sizes of their arguments' sorts, or `u64::MAX` where that is greater. It takes no memory.
pub fn cells(over: &ClassicalSignature, sizes: &List<u32>) -> u64
    ensures { result ≡ cells_of over.now sizes.now }
{
    let mut total: u64 = 0;
    for table in over.tables.as_slice() {
        total = total.saturating_add(table_rows(sizes.as_slice(), table.args.as_slice()));
    }
    total
}

/// Refuses more than 65,535 worlds, and then more than 4,194,304 cells.
pub fn check_limits(worlds: u32, cells: u64) -> Result<(), ShapeError>
    ensures within { IfOk result (λ _. IsWithin worlds cells) }
    ensures refused { IfErr result (λ error. IsRefusal worlds cells error) }
{
    if worlds > 65_535 {
        return Err(ShapeError::TooManyWorlds(u64::from(worlds)));
    }
    if cells > 4_194_304 {
        return Err(ShapeError::TooBig(cells));
    }
    Ok(())
}
