//! Cells.

use nxf_tree::{Mode, Op, Quantifier};

/// A stretch of the kids: `len` of them from place `from` on.
#[derive(Clone, Copy, Debug)]
pub struct Span {
    pub from: usize,
    pub len: usize,
}

/// A formula or a term whose parts are other cells. A number of type `usize` is a cell, and a span has the cells that stand
/// there among the kids. Symbols, sorts and indexes have their numbers in the signature, and levels count the enclosing
/// quantifiers from the outside and from 0. `Quant` has the number of its sort, and then that of its variable's name.
#[derive(Clone, Copy, Debug)]
pub enum Cell {
    True,
    False,
    Atom(u32, Span),
    Same(usize, usize),
    Differ(usize, usize),
    Not(usize),
    And(Span),
    Or(Span),
    Pair(Op, usize, usize),
    Quant(Quantifier, u32, u32, usize),
    Modal(Mode, u32, usize),
    /// The variable of the quantifier at a level.
    Bound(u32),
    App(u32, Span),
}
