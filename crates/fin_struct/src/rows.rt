//! The rows below some sizes, one after the other.
ghost use Rattle.std.specs.Prelude.{◌≡◌, ◌+◌, ◌∷◌, ◌<◌, ◌^◌, [], drop, MatchOption, IfOk};
ghost use Rattle.nxf_tree.specs.Rows as meant;
ghost use Rattle.fin_struct.specs.Places.{rows_count, InRange, place};

use crate::places::count_rows;
use crate::shapes::copy_sizes;
use nxf_base::Memory;
use std::alloc::Global;
use std::marker::Model;

/// A walk over the rows of a table in row-major order, the first number slowest. Contracts see the list of the rows that are
/// still to come. Once it is made, it takes no memory.
#[derive(Drop)]
pub struct Rows {
    sizes: Vec<u32>,
    row: Vec<u32>,
    at: u64,
    rows: u64,
}

impl Model for Rows {
    ghost use Rattle.std.specs.Prelude.{ℕ, List, drop};
    ghost use Rattle.nxf_tree.specs.Rows.{all_rows};
    ghost use Rattle.fin_struct.specs.steps.Walk.{IsWalk};

    ghost Value = { List (List ℕ) };

    ghost view = { λ w. drop w.at (all_rows w.sizes.items) };

    ghost invariant = { λ w. IsWalk w.sizes.items w.row.items w.at w.rows };
}

impl Rows {
    /// All rows below these sizes, of which there are fewer than 2^64.
    pub fn new(alloc: Global, sizes: &[u32]) -> Result<Rows, Memory>
        requires { rows_count sizes.now < 2 ^ 64 }
        ensures { IfOk result (λ rows. rows ≡ meant.all_rows sizes.now) }
    {
        let rows = count_rows(sizes);
        let row = vec![in alloc; 0; sizes.len()]?;
        let sizes = copy_sizes(alloc, sizes)?;
        Ok(Rows {
            sizes,
            row,
            at: 0,
            rows,
        })
    }

    /// The next row, or None where no row is still to come.
    pub fn row(&self) -> Option<&[u32]>
        ensures { MatchOption result (self.now ≡ []) (λ row. self.now ≡ row.now ∷ drop 1 self.now) }
    {
        if self.at < self.rows {
            Some(self.row.as_slice())
        } else {
            None
        }
    }

    /// Passes over the next row, where one is still to come.
    pub fn advance(&mut self)
        ensures { self.new ≡ drop 1 self.old }
    {
        if self.at < self.rows {
            self.at += 1;
            step(&self.sizes, &mut self.row);
        }
    }
}

/// Turns a row into the one at the next place, or the last row into the first.
fn step(sizes: &[u32], row: &mut [u32])
    requires { InRange sizes.now row.old }
    ensures in_range { InRange sizes.now row.new }
    ensures next { place sizes.now row.old + 1 < rows_count sizes.now → place sizes.now row.new ≡ place sizes.now row.old + 1 }
{
    for i in (0..row.len()).rev() {
        if row[i] + 1 < sizes[i] {
            row[i] += 1;
            return;
        }
        row[i] = 0;
    }
}
