//! The store of cells, with what reads it and what all that is put into it goes through.
ghost use Rattle.std.specs.Prelude.{◌≡◌, ℕ, ◌+◌, ◌<◌, ◌≤◌, List, [], ◌∷◌, ◌++◌, length, nat_eq, slice_get, slice_index, Some, IfOk, OnOk, OnErr};
ghost use Rattle.std.specs.List.{IsDistinct};
ghost use Rattle.std.specs.Option.{option_map};
ghost use Rattle.std.specs.Vec.{vec_len, vec_capacity};
ghost use Rattle.std.specs.Cmp.Lexicographic.{pointwise};
ghost use Rattle.numbered_definitions.specs.NamedForm.{NodeQuant};
ghost use Rattle.formula_cells.specs.Expressions.{name_in, span_of};
ghost use Rattle.formula_cells.specs.Stored.{root_of, with_root, Stored, cell_in, IsCell, expression_of, expression_at, formula_in, formulas_in, IsFormula, node_at};
ghost use Rattle.formula_cells.specs.Putting.{AddsCell, AddsNode, IsNumber};

use crate::cell::{Cell, Span};
use crate::root::Root;
use indexmap::IndexSet;
use nxf_base::{List, Memory, Text};
use nxf_tree::Quantifier;
use std::alloc::Global;
use std::marker::Model;

/// Formulas and terms, each with its parts among those before it, and the formulas of a file among them. Each name is kept
/// once.
#[derive(Drop)]
pub struct Cells {
    cells: Vec<Cell>,
    kids: Vec<usize>,
    names: IndexSet<Text>,
    roots: List<Root>,
}

impl Model for Cells {
    ghost use Rattle.formula_cells.specs.Stored.{Stored, IsStored};

    ghost Value = { Stored };

    ghost view = { λ c. record { cells = c.cells.items; kids = c.kids.items; names = c.names.keys; roots = c.roots } };

    ghost invariant = { λ c. IsStored (record { cells = c.cells.items; kids = c.kids.items; names = c.names.keys; roots = c.roots }) };
}

/// The number of a name among names, behind which it comes where it isn't one of them.
fn number_in(alloc: Global, names: &mut IndexSet<Text>, name: &Text) -> Result<u32, Memory>
    ensures grows { (more : List (List ℕ)) × (names.new.keys ≡ names.old.keys ++ more) }
    ensures differ { IsDistinct (pointwise nat_eq) names.new.keys }
    ensures number { IfOk result (λ x. IsNumber names.new.keys x name.now) }
    ensures unchanged { OnErr result (names.new.keys ≡ names.old.keys) }
{
    if names.len() >= 0xffff_ffff {
        return Err(Memory);
    }
    let copy = name.copy(alloc)?;
    match names.insert_full(copy) {
        Err(_) => return Err(Memory),
        Ok((number, _)) => Ok(number as u32),
    }
}

/// Appends a cell, for which there is room, and gives its number.
fn push_cell(cells: &mut Vec<Cell>, cell: Cell) -> usize
    requires { vec_len cells.old < vec_capacity cells.old }
    ensures at { result ≡ length cells.old.items }
    ensures pushed { cells.new.items ≡ cells.old.items ++ cell ∷ [] }
{
    let at = cells.len();
    match cells.push(cell) {
        Ok(()) => at,
        Err(_) => unreachable!(),
    }
}

impl Cells {
    /// No cells. They take no memory yet.
    pub fn new(alloc: Global) -> Cells
        ensures { result ≡ record { cells = []; kids = []; names = []; roots = [] } }
    {
        Cells {
            cells: Vec::new(alloc),
            kids: Vec::new(alloc),
            names: IndexSet::new(alloc),
            roots: List::new(alloc),
        }
    }

    /// No cells, with room for so many cells, kids and formulas; or `Memory` where there is none for them.
    pub fn with_room(
        alloc: Global,
        cells: usize,
        kids: usize,
        formulas: usize,
    ) -> Result<Cells, Memory>
        ensures { IfOk result (λ c. c ≡ record { cells = []; kids = []; names = []; roots = [] }) }
    {
        Ok(Cells {
            cells: Vec::with_capacity(alloc, cells)?,
            kids: Vec::with_capacity(alloc, kids)?,
            names: IndexSet::new(alloc),
            roots: List::with_capacity(alloc, formulas)?,
        })
    }

    /// The number of formulas of the file.
    pub fn len(&self) -> usize
        ensures { result ≡ length self.now.roots }
    {
        self.roots.len()
    }

    /// The number of the statement of a formula of the file, counted from 1. The formula is given by its place in their
    /// order, counted from 0.
    pub fn place(&self, at: usize) -> u32
        requires { at < length self.now.roots }
        ensures { option_map (λ n. n.place) (slice_get (formulas_in self.now) at) ≡ Some result }
    {
        self.roots.get(at).place
    }

    /// The name of the statement of a formula of the file.
    pub fn label(&self, at: usize) -> &Text
        requires { at < length self.now.roots }
        ensures { option_map (λ n. n.name) (slice_get (formulas_in self.now) at) ≡ Some result.now }
    {
        &self.roots.get(at).label
    }

    /// The cell of a formula of the file.
    pub fn root(&self, at: usize) -> usize
        requires { at < length self.now.roots }
        ensures value { option_map (λ r. r.cell) (slice_get self.now.roots at) ≡ Some result }
        ensures formula { IsFormula self.now result }
        ensures stands { option_map (λ n. n.node) (slice_get (formulas_in self.now) at) ≡ Some (node_at self.now result) }
    {
        self.roots.get(at).cell
    }

    /// The number of cells.
    pub fn cell_count(&self) -> usize
        ensures { result ≡ length self.now.cells }
    {
        self.cells.len()
    }

    /// A cell. What it names is there, and it stands for what its parts make.
    pub fn cell(&self, at: usize) -> &Cell
        requires { at < length self.now.cells }
        ensures value { result.now ≡ cell_in self.now.cells at }
        ensures good { IsCell self.now.cells self.now.kids self.now.names at result.now }
        ensures stands { expression_at self.now at ≡ expression_of self.now result.now }
    {
        &self.cells[at]
    }

    /// A member of the kids.
    pub fn kid(&self, at: usize) -> usize
        requires { at < length self.now.kids }
        ensures { result ≡ slice_index self.now.kids at }
    {
        self.kids[at]
    }

    /// The cells of a span.
    pub fn parts(&self, span: Span) -> &[usize]
        requires { span.from + span.len ≤ length self.now.kids }
        ensures { result.now ≡ span_of self.now.kids span }
    {
        let behind = &self.kids.as_slice()[span.from..];
        &behind[..span.len]
    }

    /// A name.
    pub fn name(&self, at: u32) -> &Text
        requires { at < length self.now.names }
        ensures { result.now ≡ name_in self.now.names at }
    {
        match self.names.get_index(at as usize) {
            Some(name) => name,
            None => unreachable!(),
        }
    }

    /// Puts a formula of the file behind those before it: the number of its statement, the statement's name, and the cell
    /// that stands for it. Where there is no memory for it, all stays as it is.
    pub fn add(&mut self, place: u32, label: Text, cell: usize) -> Result<(), Memory>
        requires { IsFormula self.old cell }
        ensures added { OnOk result (formulas_in self.new ≡ formulas_in self.old ++ formula_in self.old (root_of place label cell) ∷ []) }
        ensures alone { OnOk result (self.new ≡ with_root self.old (root_of place label cell)) }
        ensures unchanged { OnErr result (self.new ≡ self.old) }
    {
        self.roots.push(Root { place, label, cell })?;
        Ok(())
    }

    /// Where parts come to stand among the kids.
    pub(crate) fn next_span(&self, parts: &[usize]) -> Span
        ensures { result ≡ record { from = length self.now.kids; len = length parts.now } }
    {
        Span {
            from: self.kids.len(),
            len: parts.len(),
        }
    }

    /// A cell behind the others, and its parts behind the kids.
    pub(crate) fn push(&mut self, cell: Cell, parts: &[usize]) -> Result<usize, Memory>
        requires { IsCell self.old.cells (self.old.kids ++ parts.now) self.old.names (length self.old.cells) cell }
        ensures added { IfOk result (λ at. AddsCell self.old self.new at (self.old.kids ++ parts.now) cell) }
        ensures unchanged { OnErr result (self.new ≡ self.old) }
    {
        self.cells.reserve(1)?;
        self.kids.extend_from_slice(parts)?;
        Ok(push_cell(&mut self.cells, cell))
    }

    /// A quantifier over a formula: its sort's number, and its variable's name, which is kept once.
    pub fn put_quant(
        &mut self,
        alloc: Global,
        quantifier: Quantifier,
        sort: u32,
        name: &Text,
        body: usize,
    ) -> Result<usize, Memory>
        requires { IsFormula self.old body }
        ensures put { IfOk result (λ at. AddsNode self.old self.new at (NodeQuant quantifier sort name.now (node_at self.old body))) }
        ensures unchanged { OnErr result (self.new ≡ self.old) }
    {
        self.cells.reserve(1)?;
        let number = number_in(alloc, &mut self.names, name)?;
        Ok(push_cell(&mut self.cells, Cell::Quant(quantifier, sort, number, body)))
    }
}
