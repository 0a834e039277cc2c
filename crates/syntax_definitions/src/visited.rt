//! What a visited file brings.

use nxf_base::List;
use nxf_tree::Statement;

/// Statements, and the length of all files that were loaded for them and before them.
#[derive(Debug, Drop)]
pub struct Visited {
    pub statements: List<Statement>,
    pub sum: u64,
}
