//! Whether the values of a function exist where its arguments do. The rows of arguments are written one after the other into one
//! room on the stack, element by element, so that elements that don't exist are passed over with all rows that begin so.
ghost use Rattle.std.specs.Prelude.{◌≡◌, ◌<◌, ◌≤◌, Some, map, length, take, drop};
ghost use Rattle.nxf_tree.specs.Rows.{size_at};
ghost use Rattle.fin_struct.specs.KripkeTables.{symbol_table, symbol_row};
ghost use Rattle.fin_struct.specs.Places.{InRange};
ghost use Rattle.designation.specs.steps.RowTests as tests;

use fin_struct::Kripke;

// the greatest number of arguments of a symbol
const MOST_ARGUMENTS: usize = 1000;

/// Whether at each world, where all arguments exist, the value of the function exists; the numbers are of the symbol, of
/// its arguments' sorts, and of the sort of its values.
pub fn values_exist(kripke: &Kripke, symbol: u32, sorts: &[u32], gives: u32) -> bool
    requires { tests.HasFunction kripke.now symbol sorts.now gives }
    ensures { result ≡ tests.values_exist_in kripke.now symbol sorts.now gives }
{
    let mut room = [0; MOST_ARGUMENTS];
    let row = &mut room[..sorts.len()];
    for world in 0..kripke.worlds() {
        if !rows_pass(kripke, symbol, sorts, gives, world, 0, row) {
            return false;
        }
    }
    true
}

/// Whether the value exists for each row that begins as `row` does before the place, and whose other elements exist.
fn rows_pass(
    kripke: &Kripke,
    symbol: u32,
    sorts: &[u32],
    gives: u32,
    world: u32,
    place: usize,
    row: &mut [u32],
) -> bool
    requires function { tests.HasFunction kripke.now symbol sorts.now gives }
    requires world_in { world < kripke.now.worlds }
    requires place_in { place ≤ length sorts.now }
    requires room { length row.old ≡ length sorts.now }
    requires begun { InRange (map (size_at kripke.now.sizes) (take place sorts.now)) (take place row.old) }
    ensures passes { result ≡ tests.rows_pass_behind kripke.now symbol gives world (drop place sorts.now) (take place row.old) }
    ensures kept { take place row.new ≡ take place row.old }
{
    if place == sorts.len() {
        return value_exists(kripke, symbol, gives, world, row);
    }
    let sort = sorts[place];
    for element in 0..kripke.size(sort) {
        if kripke.exists(sort, world, element) {
            row[place] = element;
            if !rows_pass(kripke, symbol, sorts, gives, world, place + 1, row) {
                return false;
            }
        }
    }
    true
}

/// Whether the value for the row exists at the world.
fn value_exists(kripke: &Kripke, symbol: u32, gives: u32, world: u32, row: &[u32]) -> bool
    requires symbol_in { symbol < length kripke.now.world_first }
    requires gives_in { gives < length kripke.now.existence }
    requires world_in { world < kripke.now.worlds }
    requires function { (symbol_table kripke.now symbol).values ≡ Some (size_at kripke.now.sizes gives) }
    requires row_in { InRange (symbol_table kripke.now symbol).sizes (symbol_row kripke.now symbol world row.now) }
    ensures { result ≡ tests.value_exists_at kripke.now symbol gives world row.now }
{
    let value = kripke.value(symbol, world, row);
    kripke.exists(gives, world, value)
}
