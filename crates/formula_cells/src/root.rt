//! The formulas of a file among the cells.

use nxf_base::Text;

/// A formula of a file: the number of its statement, counted from 1, the statement's name, and the formula's cell.
#[derive(Drop)]
pub struct Root {
    pub place: u32,
    pub label: Text,
    pub cell: usize,
}
